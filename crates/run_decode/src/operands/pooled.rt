//! Leaves and slots in the pools of a body.
ghost use Rattle.std.specs.Prelude.{◌≡◌, ◌<◌, IfOk, OnOk, length, map, true};
ghost use Rattle.module_arena.specs.TypeTests.{lies_in_memory};
ghost use Rattle.run_rules.specs.Action as actions;
ghost use Rattle.run_rules.specs.Leaves.{slots};
ghost use Rattle.type_table.specs.Types.{structs, tree};
ghost use Rattle.run_names.specs.Shapes.Shapes.{shape_in};
ghost use Rattle.run_actions.specs.Stack.Origins.{origin_of};
ghost use Rattle.run_decode.specs.Flat.Grown.{Adds, AreLeaves, AreSlots, IsLeaf};

use crate::flat::{LeafAt, Pools, Span};
use ir_eval::Scalar;
use run_actions::slots::push_slots;
use run_actions::stack::Origin;
use std::alloc::{AllocError, Global};
use type_table::{TypeId, TypeTable};

/// Puts the slots of a type among the slots. It is refused for want of memory alone.
pub fn put_slots(
    alloc: Global,
    pools: &mut Pools,
    types: &TypeTable,
    ty: TypeId,
) -> Result<Span, AllocError>
    requires known { ty < length types.now.types }
    requires laid { lies_in_memory (structs types.now) (tree types.now ty) ≡ true }
    ensures grows { OnOk result (Adds pools.old pools.new) }
    ensures slots { IfOk result (λ span. AreSlots pools.new span (slots (shape_in types.now ty))) }
{
    // No type that lies in memory is larger than the limits of a table.
    let _count = types.type_count();
    let mut slots = Vec::new(alloc);
    push_slots(types, ty, 0, &mut slots)?;
    pools.slots.append(&slots)
}

/// Puts a leaf among those that are known. It is refused for want of memory alone.
pub fn put_known(pools: &mut Pools, leaf: Scalar) -> Result<LeafAt, AllocError>
    ensures grows { OnOk result (Adds pools.old pools.new) }
    ensures leaf { IfOk result (λ at. IsLeaf pools.new at (actions.Known leaf)) }
{
    let place = pools.known.push(leaf)?;
    Ok(LeafAt::Known(place))
}

/// Puts a leaf there where it is had from.
pub(crate) fn put_leaf(pools: &mut Pools, leaf: Origin) -> Result<LeafAt, AllocError>
    ensures grows { OnOk result (Adds pools.old pools.new) }
    ensures leaf { IfOk result (λ at. IsLeaf pools.new at (origin_of leaf)) }
{
    match leaf {
        Origin::Held(place) => Ok(LeafAt::Held(place)),
        Origin::Known(leaf) => put_known(pools, leaf),
    }
}

/// Puts leaves among the origins.
pub(crate) fn put_leaves(pools: &mut Pools, leaves: &[Origin]) -> Result<Span, AllocError>
    ensures grows { OnOk result (Adds pools.old pools.new) }
    ensures leaves { IfOk result (λ span. AreLeaves pools.new span (map origin_of leaves.now)) }
{
    pools.origins.append(leaves)
}
