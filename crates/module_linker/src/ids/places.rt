//! Places for the new ids of entries.
ghost use Rattle.std.specs.Prelude.{◌≡◌, map, All, IfOk, OnOk};
ghost use Rattle.module_arena.specs.Known.{AreDistinct, HasGlobal, counts};
ghost use Rattle.entry_copy.specs.Tables.{with_entries};
ghost use Rattle.module_linker.specs.Ids.Filing.{places, with_known};

use entry_copy::Copier;
use linkage_rules::arena_of;
use module_arena::{Arena, Checked, GlobalId};
use std::alloc::{AllocError, Global};
use std::marker::Model;

/// The new ids of the entries of one part, where they are known.
#[derive(Drop)]
pub(crate) struct PartIds {
    variables: Vec<Option<GlobalId>>,
    functions: Vec<Option<GlobalId>>,
    aliases: Vec<Option<GlobalId>>,
}

impl Model for PartIds {
    ghost use Rattle.module_linker.specs.Ids.Filing.{KnownIds};

    ghost Value = { KnownIds };

    ghost view = { λ p. record { variables = p.variables.items; functions = p.functions.items; aliases = p.aliases.items } };
}

impl PartIds {
    /// A place for each entry of an arena, of none of which the new id is known.
    fn new(alloc: Global, from: &Arena) -> Result<PartIds, AllocError>
        ensures places { IfOk result (λ ids. places ids ≡ counts from.now) }
        ensures distinct { OnOk result (AreDistinct from.now) }
    {
        Ok(PartIds {
            variables: vec![in alloc; None; from.variable_count() as usize]?,
            functions: vec![in alloc; None; from.function_count() as usize]?,
            aliases: vec![in alloc; None; from.alias_count() as usize]?,
        })
    }

    /// From now on this is the new id of an entry.
    pub(crate) fn set(&mut self, entry: GlobalId, new: GlobalId)
        requires { HasGlobal (places self.old) entry }
        ensures { self.new ≡ with_known self.old entry new }
    {
        match entry {
            GlobalId::Variable(id) => self.variables[id.number() as usize] = Some(new),
            GlobalId::Function(id) => self.functions[id.number() as usize] = Some(new),
            GlobalId::Alias(id) => self.aliases[id.number() as usize] = Some(new),
        }
    }

    /// Gives the copier of the part these ids.
    pub(crate) fn give(self, copier: &mut Copier)
        ensures { copier.new ≡ with_entries copier.old self.variables self.functions self.aliases }
    {
        let PartIds {
            variables,
            functions,
            aliases,
        } = self;
        copier.set_entries(variables, functions, aliases);
    }
}

/// Places for the new ids of the entries of all parts.
pub(crate) fn all_places(alloc: Global, parts: &[Checked]) -> Result<Vec<PartIds>, AllocError>
    ensures places { IfOk result (λ ids. map places ids.items ≡ map counts parts.now) }
    // No two entries of a part have one name.
    ensures distinct { OnOk result (All AreDistinct parts.now) }
{
    let mut ids = Vec::new(alloc);
    'parts: for part in 0..parts.len() {
        ids.push(PartIds::new(alloc, arena_of(parts, part as u64))?)?;
    }
    Ok(ids)
}
