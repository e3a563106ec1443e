//! Initialisers and targets, set in the order of the entries.
ghost use Rattle.std.specs.Prelude.{◌≡◌, slice_index_or, None};
ghost use Rattle.bitcode_read.specs.Holding.Holding.{AreUnset, AreUntargeted, HasConstants, HasTargets, initialised_by, targeted_by};

use module_arena::{AliasId, Arena, ConstId, GlobalId, VariableId};

/// The initialiser at that place, if there is one.
fn initialiser_at(initialisers: &[Option<ConstId>], place: u32) -> Option<ConstId>
    ensures { result ≡ slice_index_or initialisers.now place None }
{
    match initialisers.get(place as usize) {
        Some(initialiser) => *initialiser,
        None => None,
    }
}

/// Gives the first variables these initialisers, one each; where it is None, a variable has none. No variable has one yet.
pub fn set_initialisers(arena: &mut Arena, initialisers: &[Option<ConstId>])
    requires unset { AreUnset arena.old }
    requires known { HasConstants arena.old initialisers.now }
    ensures { arena.new ≡ record arena.old { variables = initialised_by arena.old.variables initialisers.now } }
{
    let count = arena.variable_count();
    'variables: for number in 0..count {
        match initialiser_at(initialisers, number) {
            Some(constant) => arena.set_initialiser(VariableId::new(number), constant),
            None => {}
        }
    }
}

/// The target at that place, if there is one.
fn target_at(targets: &[Option<GlobalId>], place: u32) -> Option<GlobalId>
    ensures { result ≡ slice_index_or targets.now place None }
{
    match targets.get(place as usize) {
        Some(target) => *target,
        None => None,
    }
}

/// Gives the first aliases these targets, one each; where it is None, an alias has none. No alias has one yet.
pub fn set_targets(arena: &mut Arena, targets: &[Option<GlobalId>])
    requires untargeted { AreUntargeted arena.old }
    requires known { HasTargets arena.old targets.now }
    ensures { arena.new ≡ record arena.old { aliases = targeted_by arena.old.aliases targets.now } }
{
    let count = arena.alias_count();
    'aliases: for number in 0..count {
        match target_at(targets, number) {
            Some(target) => arena.set_target(AliasId::new(number), target),
            None => {}
        }
    }
}
