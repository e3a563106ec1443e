//! The leaves of `select` and `freeze` in the pools of a body (LangRef, "select Instruction", "freeze Instruction").
ghost use Rattle.std.specs.Prelude.{◌≡◌, IfOk, OnOk, map, zip};
ghost use Rattle.run_rules.specs.Leaves.{is_pointer, slots};
ghost use Rattle.run_names.specs.Shapes.Shapes.{shape_in};
ghost use Rattle.run_decode.specs.Scopes.Scopes.{HasOperand};
ghost use Rattle.run_decode.specs.Flat.Grown.{Adds, AreArms, AreParts};
ghost use Rattle.run_decode.specs.Operands.Pairs.{arm_with, origins_in, part_with};
ghost use Rattle.run_decode.specs.Operands.Suits.{HasStored};

use crate::flat::{Pools, Span};
use crate::scopes::{FunctionScope, push_value};
use ir_memory::Leaf;
use module_arena::Operand;
use run_actions::slots::push_slots;
use run_actions::stack::Origin;
use run_actions::{Arm, FrozenLeaf};
use run_names::values::Slot;
use std::alloc::{AllocError, Global};

/// A leaf of each of two values, as many as the shorter has.
fn arms_of(alloc: Global, first: &[Origin], second: &[Origin]) -> Result<Vec<Arm>, AllocError>
    ensures { IfOk result (λ arms. arms.items ≡ map arm_with (zip first.now second.now)) }
{
    first
        .iter()
        .zip(second)
        .map(|(first, second)| Arm {
            first: *first,
            second: *second,
        })
        .collect(alloc)
}

/// Puts the leaves of both operands of a `select` among the arms, a leaf of one beside that of the other. It is refused for want of memory
/// alone; then what the pools have is not told.
pub fn put_arms(
    scope: &FunctionScope<'_, '_>,
    pools: &mut Pools,
    first: Operand,
    second: Operand,
) -> Result<Span, AllocError>
    requires first { HasOperand scope.now first }
    requires second { HasOperand scope.now second }
    ensures grows { OnOk result (Adds pools.old pools.new) }
    ensures arms { IfOk result (λ span. AreArms pools.new span (zip (origins_in scope.now first) (origins_in scope.now second))) }
{
    let mut chosen = Vec::new(scope.alloc());
    push_value(scope, first.ty, first.value, &mut chosen)?;
    let mut others = Vec::new(scope.alloc());
    push_value(scope, second.ty, second.value, &mut others)?;
    let arms = arms_of(scope.alloc(), &chosen, &others)?;
    pools.arms.append(&arms)
}

/// A leaf, and whether it is a pointer.
fn part_of(slot: Slot, value: Origin) -> FrozenLeaf
    ensures { result ≡ part_with (slot, value) }
{
    let pointer = match slot.leaf() {
        Leaf::Int(_) => false,
        Leaf::Ptr => true,
    };
    FrozenLeaf { pointer, value }
}

/// The leaves of a value, and whether each is a pointer.
fn parts_of(alloc: Global, slots: &[Slot], leaves: &[Origin]) -> Result<Vec<FrozenLeaf>, AllocError>
    ensures { IfOk result (λ parts. parts.items ≡ map part_with (zip slots.now leaves.now)) }
{
    slots
        .iter()
        .zip(leaves)
        .map(|(slot, leaf)| part_of(*slot, *leaf))
        .collect(alloc)
}

/// Puts the leaves of the operand of a `freeze` among the parts, beside each whether it is a pointer. It is refused for want of memory
/// alone; then what the pools have is not told.
pub fn put_parts(
    scope: &FunctionScope<'_, '_>,
    pools: &mut Pools,
    operand: Operand,
) -> Result<Span, AllocError>
    requires { HasStored scope.now operand }
    ensures grows { OnOk result (Adds pools.old pools.new) }
    ensures parts { IfOk result (λ span. AreParts pools.new span (zip
        (map (λ s. is_pointer s.leaf) (slots (shape_in scope.now.lists.table operand.ty))) (origins_in scope.now operand))) }
{
    let types = scope.types();
    // No type that lies in memory is larger than the limits of a table.
    let _count = types.type_count();
    let mut slots = Vec::new(scope.alloc());
    push_slots(types, operand.ty, 0, &mut slots)?;
    let mut leaves = Vec::new(scope.alloc());
    push_value(scope, operand.ty, operand.value, &mut leaves)?;
    let parts = parts_of(scope.alloc(), &slots, &leaves)?;
    pools.parts.append(&parts)
}
