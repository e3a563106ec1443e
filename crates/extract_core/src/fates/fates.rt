//! What becomes of entries.
ghost use Rattle.std.specs.Prelude.{◌≡◌, length, IfOk};
ghost use Rattle.extract_rules.specs.Flags.{AreKept, AreNamed};
ghost use Rattle.extract_rules.specs.declared.selection.Selection.{Selection};
ghost use Rattle.module_arena.specs.Module.{Module};
ghost use Rattle.extract_core.specs.Fates.Fates.{AreFates, fate_of, fates_of};

use extract_rules::{EntryFlags, FlagList};
use ir_base::ItemList;
use std::alloc::{AllocError, Global};

/// What becomes of an entry where a part of its module is extracted.
#[derive(Clone, Copy, Debug, PartialEq, Eq)]
pub enum Fate {
    /// It stays a definition.
    Kept,
    /// It becomes a declaration: a kept definition names it.
    Declared,
    /// It is not in the part.
    LeftOut,
}

/// What becomes of some entries, in their order.
pub type FateList = ItemList<Fate>;

/// What becomes of each entry of a module: by kind, in the order of the arena.
#[derive(Drop)]
pub struct Fates {
    pub variables: FateList,
    pub functions: FateList,
    pub aliases: FateList,
}

/// What becomes of an entry that is kept or not, and named by a kept definition or not.
fn fate_of(is_kept: bool, is_named: bool) -> Fate
    ensures { result ≡ fate_of is_kept is_named }
{
    if is_kept {
        Fate::Kept
    } else if is_named {
        Fate::Declared
    } else {
        Fate::LeftOut
    }
}

/// What becomes of entries of one kind.
fn fates_of(alloc: Global, kept: &FlagList, named: &FlagList) -> Result<FateList, AllocError>
    requires { length kept.now ≡ length named.now }
    ensures { IfOk result (λ fates. fates ≡ fates_of kept.now named.now) }
{
    let mut fates = ItemList::new(alloc);
    for number in 0..kept.len() {
        let fate = fate_of(*kept.at(number), *named.at(number));
        fates.push(fate)?;
    }
    Ok(fates)
}

/// What becomes of all entries of a module, of which these are kept and these are named by what is kept. Only memory may
/// be wanting.
pub fn all_fates(alloc: Global, kept: &EntryFlags, named: &EntryFlags) -> Result<Fates, AllocError>
    requires { (m : Module) × (s : Selection) × AreKept m s kept.now × AreNamed m s named.now }
    ensures { IfOk result (λ fates. (m : Module) (s : Selection) → AreKept m s kept.now → AreNamed m s named.now → AreFates m s fates) }
{
    let variables = fates_of(alloc, &kept.variables, &named.variables)?;
    let functions = fates_of(alloc, &kept.functions, &named.functions)?;
    let aliases = fates_of(alloc, &kept.aliases, &named.aliases)?;
    Ok(Fates {
        variables,
        functions,
        aliases,
    })
}
