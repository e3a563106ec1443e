//! The names of all parts, with what they mean.
ghost use Rattle.std.specs.Prelude.{◌≡◌, ◌<◌, length, map, is_some, IfOk, IfSome};
ghost use Rattle.std.specs.Option.{option_copied};
ghost use Rattle.linkage_rules.specs.Ids.{modules};
ghost use Rattle.linkage_rules.specs.Resolved.{AreBindings};
ghost use Rattle.linkage_rules.specs.Resolving.Meanings.{AreAbsent, AreMeanings, AreNames, IsMeant, has_name, told_of};

use crate::resolving::Bound;
use crate::resolving::absent::{Absent, absent_among};
use crate::resolving::meaning::meaning;
use crate::{Bindings, arena_of, name, push_part};
use indexmap::IndexMap;
use ir_base::Name;
use module_arena::Checked;
use std::alloc::{AllocError, Global};
use std::marker::Model;

/// The names of a part, with what they mean.
type BoundNames = IndexMap<Name, Bound>;

/// What the names of some parts mean.
#[derive(Drop)]
pub struct Meanings {
    names: Vec<BoundNames>,
}

impl Model for Meanings {
    ghost use Rattle.std.specs.Prelude.{List, map};
    ghost use Rattle.linkage_rules.specs.Resolving.Meanings.{NamesTold};

    ghost Value = { List NamesTold };

    ghost view = { λ m. map (λ names. names.entries) m.names.items };
}

impl Meanings {
    /// What a name means in the part with that number, counted from 0. None exactly where the part has no entry of the
    /// name (LangRef, "Linkage Types", "Aliases").
    pub fn bind(&self, part: u64, name: &Name) -> Option<&Bound>
        ensures { option_copied result ≡ told_of self.now part name.now }
    {
        let names = self.names.get(part as usize)?;
        names.get(name)
    }
}

/// The names of one part.
fn names_of(
    alloc: Global,
    parts: &[Checked],
    bindings: &Bindings,
    absent: &Absent,
    part: u64,
) -> Result<BoundNames, AllocError>
    requires absent { AreAbsent (modules parts.now) absent.now.entries }
    requires part { part < length parts.now }
    requires bindings { AreBindings parts.now bindings.now }
    ensures { IfOk result (λ names. AreNames (modules parts.now) part names.entries) }
{
    let mut ids = Vec::new(alloc);
    push_part(&mut ids, part, arena_of(parts, part))?;
    let mut names = IndexMap::new(alloc);
    for id in &ids {
        let entry_name = name(parts, *id);
        let bound = meaning(alloc, parts, bindings, absent, part, entry_name)?;
        names.insert(entry_name.copy(alloc)?, bound)?;
    }
    Ok(names)
}

impl Bindings {
    /// What a name means in the part with that number, counted from 0, through aliases. None exactly
    /// where the part has no entry of the name. It is refused for want of memory alone. It reads all
    /// names of the part; [`bind_names`] is for many (LangRef, "Linkage Types", "Aliases").
    pub fn bind(
        &self,
        alloc: Global,
        parts: &[Checked],
        part: u64,
        name: &Name,
    ) -> Result<Option<Bound>, AllocError>
        requires { AreBindings parts.now self.now }
        ensures bound { IfOk result (λ b. IfSome b (IsMeant (modules parts.now) part name.now)) }
        ensures known { IfOk result (λ b. is_some b ≡ has_name (modules parts.now) part name.now) }
    {
        if part >= parts.len() as u64 {
            return Ok(None);
        }
        let absent = IndexMap::new(alloc);
        let mut names = names_of(alloc, parts, self, &absent, part)?;
        Ok(names.swap_remove(name))
    }
}

/// What the names of parts mean whose symbols are resolved: of each name of each part exactly the definition, the
/// appended array, the host's function, null or nothing that it is bound to, through aliases, and of any other name none.
/// It is refused for want of memory alone (LangRef, "Linkage Types", "Aliases").
pub fn bind_names(
    alloc: Global,
    parts: &[Checked],
    bindings: &Bindings,
) -> Result<Meanings, AllocError>
    requires { AreBindings parts.now bindings.now }
    ensures { IfOk result (AreMeanings (modules parts.now)) }
{
    let absent = absent_among(alloc, parts, bindings, bindings.symbols().as_slice())?;
    let mut names = Vec::new(alloc);
    for part in 0..parts.len() {
        names.push(names_of(alloc, parts, bindings, &absent, part as u64)?)?;
    }
    Ok(Meanings { names })
}
