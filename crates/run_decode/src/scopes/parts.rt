//! The leaves of parts of arrays and structs (LangRef, "Aggregate Operations").
ghost use Rattle.std.specs.Prelude.{◌≡◌, ◌+◌, ◌^◌, ◌<◌, OnOk, drop, map, take};
ghost use Rattle.type_table.specs.Layout.{leaves};
ghost use Rattle.type_table.specs.Types.{tree};
ghost use Rattle.run_initial.specs.Constants.Sound.{names_of};
ghost use Rattle.run_rules.specs.Constant.{shape_of};
ghost use Rattle.run_rules.specs.Leaves.{leaves_before_part, part};
ghost use Rattle.run_rules.specs.Resolve.{extracted, inserted};
ghost use Rattle.run_actions.specs.Stack.Origins.{origin_of};
ghost use Rattle.run_decode.specs.Scopes.Leaves.{Gains};
ghost use Rattle.run_decode.specs.Scopes.Places.{HasPart};
ghost use Rattle.run_decode.specs.Scopes.Scopes.{HasOperand, operand_of, scope_in};

use crate::scopes::leaves::push_value;
use crate::scopes::scope::FunctionScope;
use module_arena::Operand;
use run_actions::stack::Origin;
use run_names::shapes::layout_of;
use run_names::types::part_of;
use std::alloc::AllocError;
use type_table::TypeId;

/// How many leaves of a value of that type stand before a part of it, and how many the part has.
fn leaves_to(scope: &FunctionScope<'_, '_>, ty: TypeId, indices: &[u32]) -> (u64, u64)
    requires { HasPart scope.now.lists ty indices.now }
    ensures before { result.0 ≡ leaves_before_part (shape_of (names_of scope.now.lists) (tree scope.now.lists.table ty)) indices.now }
    ensures count { result.1 ≡ leaves (part (shape_of (names_of scope.now.lists) (tree scope.now.lists.table ty)) indices.now) }
    ensures few { result.0 + result.1 < 2 ^ 64 }
{
    let types = scope.types();
    let part = part_of(types, ty, indices);
    (part.before, layout_of(types, part.ty).leaves)
}

/// The first so many leaves, or as many as there are.
fn front(leaves: &[Origin], count: u64) -> &[Origin]
    ensures { result.now ≡ take count leaves.now }
{
    if count >= leaves.len() as u64 {
        return leaves;
    }
    &leaves[..count as usize]
}

/// The leaves behind the first so many.
fn behind(leaves: &[Origin], count: u64) -> &[Origin]
    ensures { result.now ≡ drop count leaves.now }
{
    if count >= leaves.len() as u64 {
        return &[];
    }
    &leaves[count as usize..]
}

/// Appends leaves.
fn push_all(into: &mut Vec<Origin>, leaves: &[Origin]) -> Result<(), AllocError>
    ensures { OnOk result (Gains into.old.items into.new.items (map origin_of leaves.now)) }
{
    into.extend_from_slice(leaves)?;
    Ok(())
}

/// Appends where the leaves of a part of an operand are had from. It is refused for want of memory alone, and may then have appended
/// some.
pub fn push_extracted(
    scope: &FunctionScope<'_, '_>,
    aggregate: Operand,
    indices: &[u32],
    into: &mut Vec<Origin>,
) -> Result<(), AllocError>
    requires aggregate { HasOperand scope.now aggregate }
    requires part { HasPart scope.now.lists aggregate.ty indices.now }
    ensures { OnOk result (Gains into.old.items into.new.items (extracted (scope_in scope.now.lists scope.now.function) (operand_of scope.now.lists scope.now.function aggregate) indices.now)) }
{
    let (before, count) = leaves_to(scope, aggregate.ty, indices);
    let mut whole = Vec::new(scope.alloc());
    push_value(scope, aggregate.ty, aggregate.value, &mut whole)?;
    push_all(into, front(behind(&whole, before), count))
}

/// Appends where the leaves of an operand are had from, with those of a part replaced. It is refused for want of memory alone, and may
/// then have appended some.
pub fn push_inserted(
    scope: &FunctionScope<'_, '_>,
    aggregate: Operand,
    new: Operand,
    indices: &[u32],
    into: &mut Vec<Origin>,
) -> Result<(), AllocError>
    requires aggregate { HasOperand scope.now aggregate }
    requires new { HasOperand scope.now new }
    requires part { HasPart scope.now.lists aggregate.ty indices.now }
    ensures { OnOk result (Gains into.old.items into.new.items (inserted (scope_in scope.now.lists scope.now.function) (operand_of scope.now.lists scope.now.function aggregate) (operand_of scope.now.lists scope.now.function new) indices.now)) }
{
    let (before, count) = leaves_to(scope, aggregate.ty, indices);
    let mut whole = Vec::new(scope.alloc());
    push_value(scope, aggregate.ty, aggregate.value, &mut whole)?;
    push_all(into, front(&whole, before))?;
    push_value(scope, new.ty, new.value, into)?;
    push_all(into, behind(&whole, before + count))
}
