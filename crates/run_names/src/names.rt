//! What the names of a module mean in a run of it alone.
ghost use Rattle.std.specs.Prelude.{◌≡◌, ℕ, ◌<◌, IfOk, length, slice_get};
ghost use Rattle.std.specs.Option.{option_map};
ghost use Rattle.module_arena.specs.declared.entry.GlobalId.TheVariants as GlobalId;
ghost use Rattle.module_arena.specs.Known.{HasGlobal, counts};
ghost use Rattle.module_arena.specs.Lists.{name_at};
ghost use Rattle.module_arena.specs.View.{module_of};
ghost use Rattle.run_rules.specs.Look.{bounds_in, names_in, table};
ghost use Rattle.run_names.specs.Spots.{AreSpots, AreWithin, bounds_of};
ghost use Rattle.run_names.specs.Told.{HasCode, alone, callee_seen};

use crate::callee::{function_number, function_pointer};
use crate::spot::{addresses_of, spots_of};
use crate::standing::{Standing, standings};
use crate::{CalleeRef, Spot};
use ir_eval::{Pointer, Scalar};
use module_arena::{AliasId, Checked, FunctionId, GlobalId};
use std::alloc::{AllocError, Global};
use std::marker::Model;

/// What the names of a module mean in a run of it alone.
#[derive(Drop)]
pub struct Names<'m> {
    program: &'m Checked,
    spots: Vec<Spot>,
    addresses: Vec<Scalar>,
    standings: Vec<Standing>,
}

impl<'m> Model for Names<'m> {
    ghost use Rattle.module_arena.specs.Lists.{Lists};
    ghost use Rattle.run_names.specs.Spots.{AreAddresses, AreSpots};
    ghost use Rattle.run_names.specs.Standings.{AreStandings};

    ghost Value = { Lists };

    ghost view = { λ n. n.program.now };

    ghost invariant = { λ n. AreSpots n.program.now n.spots.items × AreAddresses n.program.now n.addresses.items × AreStandings n.program.now n.standings.items };
}

/// What the names of a module mean. It is refused for want of memory alone, and linear in the module.
pub fn names_of<'m>(alloc: Global, program: &'m Checked) -> Result<Names<'m>, AllocError>
    ensures { IfOk result (λ names. names ≡ program.now) }
{
    let spots = spots_of(alloc, program)?;
    let addresses = addresses_of(alloc, program, &spots)?;
    let standings = standings(alloc, program)?;
    Ok(Names {
        program,
        spots,
        addresses,
        standings,
    })
}

/// Where the variable with that block starts and ends.
fn bounds_at(spots: &[Spot], block: u64) -> Option<(u64, u64)>
    requires { AreWithin spots.now }
    ensures { result ≡ option_map bounds_of (slice_get spots.now block) }
{
    let spot = spots.get(block as usize)?;
    Some((spot.start, spot.start + spot.size))
}

impl<'m> Names<'m> {
    /// The module.
    pub fn program(&self) -> &'m Checked
        ensures { result.now ≡ self.now }
    {
        self.program
    }

    /// Where the variables lie that are defined, in the order of their blocks.
    pub fn spots(&self) -> &[Spot]
        ensures { AreSpots self.now result.now }
    {
        &self.spots
    }

    /// The address of a function that is there: null where no one defines it and the module can do without it.
    fn address_of_function(&self, id: FunctionId) -> Scalar
        requires { id < length self.now.functions }
        ensures { result ≡ (names_in (alone (module_of self.now)) 0).address (name_at self.now (GlobalId.Function id)) }
    {
        let _arena = self.program.arena();
        match self.standings[id.number() as usize] {
            Standing::Code => function_pointer(id),
            Standing::Host(_) => function_pointer(id),
            Standing::Null => Scalar::Ptr(Pointer {
                block: None,
                address: 0,
            }),
            Standing::Unresolved => Scalar::Poison,
        }
    }

    /// The address of what an alias is of.
    fn address_of_target(&self, target: GlobalId) -> Scalar
        requires known { HasGlobal (counts self.now) target }
        requires plain { (id : ℕ) → ¬ (target ≡ GlobalId.Alias id) }
        ensures { result ≡ (names_in (alone (module_of self.now)) 0).address (name_at self.now target) }
    {
        let _arena = self.program.arena();
        match target {
            GlobalId::Variable(id) => self.addresses[id.number() as usize],
            GlobalId::Function(id) => self.address_of_function(id),
            GlobalId::Alias(_) => Scalar::Poison,
        }
    }

    /// The address of an alias: that of what it is of.
    fn address_of_alias(&self, id: AliasId) -> Scalar
        requires { id < length self.now.aliases }
        ensures { result ≡ (names_in (alone (module_of self.now)) 0).address (name_at self.now (GlobalId.Alias id)) }
    {
        let arena = self.program.arena();
        // What an alias of an arena is of is an entry of the arena, and no alias.
        let _count = arena.variable_count();
        let Some(target) = arena.alias(id).target else {
            return Scalar::Poison;
        };
        self.address_of_target(target)
    }

    /// What the name of a global is: the address of what it stands for, through an alias; null where no one defines it and the
    /// module can do without it. That of a name without meaning is poison, and no run comes to it (LangRef, "Aliases").
    pub fn address(&self, global: GlobalId) -> Scalar
        requires { HasGlobal (counts self.now) global }
        ensures { result ≡ (names_in (alone (module_of self.now)) 0).address (name_at self.now global) }
    {
        let _arena = self.program.arena();
        match global {
            GlobalId::Variable(id) => self.addresses[id.number() as usize],
            GlobalId::Function(id) => self.address_of_function(id),
            GlobalId::Alias(id) => self.address_of_alias(id),
        }
    }

    /// Where the variable starts and ends whose block a pointer is to; None where it is to no variable's block.
    pub fn bounds(&self, pointer: Pointer) -> Option<(u64, u64)>
        ensures { result ≡ bounds_in (alone (module_of self.now)) pointer }
    {
        match pointer.block {
            Some(block) => bounds_at(&self.spots, block),
            None => None,
        }
    }

    /// What can be called at an address.
    pub fn callee(&self, address: u64) -> CalleeRef
        ensures value { callee_seen (alone (module_of self.now)) result ≡ table (alone (module_of self.now)) address }
        ensures code { HasCode self.now result }
    {
        let Some(number) = function_number(address) else {
            return CalleeRef::Nothing;
        };
        if number >= u64::from(self.program.arena().function_count()) {
            return CalleeRef::Nothing;
        }
        match self.standings[number as usize] {
            Standing::Code => CalleeRef::Code(FunctionId::new(number as u32)),
            Standing::Host(row) => CalleeRef::Host(row),
            Standing::Null | Standing::Unresolved => CalleeRef::Nothing,
        }
    }
}
