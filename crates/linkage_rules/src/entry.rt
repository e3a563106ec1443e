//! The entries of parts, under ids.
ghost use Rattle.std.specs.Prelude.{◌≡◌, ◌<◌, length, slice_get, Some, is_some, true, false, IfOk};
ghost use Rattle.module_arena.specs.Valid.{IsValid};
ghost use Rattle.module_arena.specs.View.{module_of};
ghost use Rattle.module_arena.specs.WellFormed.{IsWellFormed};
ghost use Rattle.linkage_rules.specs.Globals.{name_of};
ghost use Rattle.linkage_rules.specs.Winner as winner;
ghost use Rattle.linkage_rules.specs.Ids.{IsEntryId, global_id, modules, seen};
ghost use Rattle.linkage_rules.specs.Grouped.{head_of, key_in};
ghost use Rattle.linkage_rules.specs.Heads as heads;

use crate::linkage::is_local;
use crate::{Symbol, SymbolKind};
use ir_base::{ItemList, Name};
use ir_tables::Linkage;
use module_arena::{
    Alias, AliasId, AliasType, Arena, Checked, Function, FunctionId, GlobalId, Variable, VariableId,
};
use std::alloc::{AllocError, Global};

/// Which entry of which part. Parts are counted from 0, and entries of one kind in the order of their making.
///
/// ```
/// EntryId { part: 1, kind: SymbolKind::Function, number: 0 } // the first function of the second part
/// EntryId::of(1, GlobalId::Function(id)) // the same, where the number of `id` is 0
/// ```
#[derive(Clone, Copy)]
pub struct EntryId {
    pub part: u64,
    pub kind: SymbolKind,
    pub number: u32,
}

impl EntryId {
    /// The entry of a part with that id.
    pub fn of(part: u64, id: GlobalId) -> EntryId
        ensures part { result.part ≡ part }
        ensures global { global_id result ≡ id }
    {
        match id {
            GlobalId::Variable(id) => EntryId {
                part,
                kind: SymbolKind::Variable,
                number: id.number(),
            },
            GlobalId::Function(id) => EntryId {
                part,
                kind: SymbolKind::Function,
                number: id.number(),
            },
            GlobalId::Alias(id) => EntryId {
                part,
                kind: SymbolKind::Alias,
                number: id.number(),
            },
        }
    }

    /// The id of the entry in its part.
    pub fn global(self) -> GlobalId
        ensures { result ≡ global_id self }
    {
        match self.kind {
            SymbolKind::Variable => GlobalId::Variable(VariableId::new(self.number)),
            SymbolKind::Function => GlobalId::Function(FunctionId::new(self.number)),
            SymbolKind::Alias => GlobalId::Alias(AliasId::new(self.number)),
        }
    }
}

/// Some entries, in order.
pub type EntryList = ItemList<EntryId>;

/// What is told of an entry without its names and types.
#[derive(Clone, Copy)]
pub struct EntryHead {
    /// Its linkage.
    pub linkage: Linkage,
    /// Whether it has an initialiser or a body, or is an alias.
    pub written: bool,
    /// Whether it is a variable, or an alias of one.
    pub variable: bool,
    /// Whether it is an alias.
    pub alias: bool,
    /// Whether it is a variable that is never written.
    pub constant: bool,
}

/// The arena of the part with that number, counted from 0.
pub fn arena_of(parts: &[Checked], part: u64) -> &Arena
    requires { part < length parts.now }
    ensures arena { slice_get parts.now part ≡ Some result.now }
    ensures well_formed { IsWellFormed (module_of result.now) }
    ensures valid { IsValid (module_of result.now) }
{
    parts[part as usize].arena()
}

fn variable_head(variable: &Variable) -> EntryHead
    ensures { result ≡ heads.variable_head variable.now }
{
    EntryHead {
        linkage: variable.linkage,
        written: variable.initialiser.is_some(),
        variable: true,
        alias: false,
        constant: variable.constant,
    }
}

fn function_head(function: &Function) -> EntryHead
    ensures { result ≡ heads.function_head function.now }
{
    EntryHead {
        linkage: function.linkage,
        written: function.body.is_some(),
        variable: false,
        alias: false,
        constant: false,
    }
}

fn alias_head(alias: &Alias) -> EntryHead
    ensures { result ≡ heads.alias_head alias.now }
{
    EntryHead {
        linkage: alias.linkage,
        written: true,
        variable: matches!(&alias.ty, AliasType::Plain(_)),
        alias: true,
        constant: false,
    }
}

/// What is told of an entry without its names and types.
pub fn head_of(parts: &[Checked], id: EntryId) -> EntryHead
    requires { IsEntryId parts.now id }
    ensures { result ≡ head_of (seen (modules parts.now) id).global }
{
    let arena = arena_of(parts, id.part);
    match id.kind {
        SymbolKind::Variable => variable_head(arena.variable(VariableId::new(id.number))),
        SymbolKind::Function => function_head(arena.function(FunctionId::new(id.number))),
        SymbolKind::Alias => alias_head(arena.alias(AliasId::new(id.number))),
    }
}

/// The name of an entry.
pub fn name(parts: &[Checked], id: EntryId) -> &Name
    requires { IsEntryId parts.now id }
    ensures { result.now ≡ name_of (seen (modules parts.now) id).global }
{
    arena_of(parts, id.part).name(id.global())
}

/// Whether an entry is an alias, or has an initialiser or a body that counts.
pub fn is_definition(parts: &[Checked], id: EntryId) -> bool
    requires { IsEntryId parts.now id }
    ensures { result ≡ winner.is_definition (seen (modules parts.now) id) }
{
    let head = head_of(parts, id);
    head.written && !matches!(head.linkage, Linkage::AvailableExternally)
}

/// The symbol of an entry.
pub(crate) fn key(alloc: Global, parts: &[Checked], id: EntryId) -> Result<Symbol, AllocError>
    requires { IsEntryId parts.now id }
    ensures { IfOk result (λ symbol. symbol ≡ key_in (modules parts.now) id) }
{
    let name = name(parts, id).copy(alloc)?;
    if is_local(head_of(parts, id).linkage) {
        Ok(Symbol::Local(id.part, name))
    } else {
        Ok(Symbol::Shared(name))
    }
}
