//! Where the leaves of operands are had from.
ghost use Rattle.std.specs.Prelude.{◌≡◌, ◌<◌, ◌≤◌, ◌-◌, ◌++◌, ◌∷◌, [], All, IfOk, OnOk, flat_map, length, map};
ghost use Rattle.std.specs.List.{range_with_len};
ghost use Rattle.type_table.specs.Tree.{Tree, ptr};
ghost use Rattle.type_table.specs.Types.{tree};
ghost use Rattle.run_rules.specs.Action as actions;
ghost use Rattle.run_rules.specs.Constant.{constant_value};
ghost use Rattle.run_rules.specs.Scope.{operand_in, scalar_in, scalar_of, value_in};
ghost use Rattle.run_actions.specs.Stack.Origins.{origin_of};
ghost use Rattle.run_initial.specs.Constants.Sound.{constant_of, names_of};
ghost use Rattle.run_decode.specs.Scopes.Leaves.{Gains};
ghost use Rattle.run_decode.specs.Scopes.Scopes.{HasOperand, HasScalar, HasScalarAt, HasValue, HasValueAt, StandsAt, operand_of, scope_in, value_of};

use crate::scopes::scope::FunctionScope;
use ir_eval::Scalar;
use module_arena::{ConstId, Operand, Value, ValueId};
use run_actions::stack::Origin;
use run_initial::constants::{leaf_of, pointer_leaf, push_leaves};
use std::alloc::AllocError;
use type_table::TypeId;

/// Where the one leaf of a parameter or result is had from that is an integer or a pointer.
fn local_leaf(scope: &FunctionScope<'_, '_>, id: ValueId) -> Origin
    requires { HasValue scope.now (Value.Local id) }
    ensures { (ty : Tree) → origin_of result ≡ scalar_of (scope_in scope.now.lists scope.now.function) ty (value_of scope.now.lists scope.now.function (Value.Local id)) }
{
    let (begin, end) = scope.bounds(id);
    // A value without a leaf is no integer and no pointer.
    if begin == end {
        return Origin::Known(Scalar::Poison);
    }
    Origin::Held(begin)
}

/// Where the one leaf of a value at that type is had from, which is an integer or a pointer.
fn value_leaf(scope: &FunctionScope<'_, '_>, ty: TypeId, value: Value) -> Origin
    requires { HasScalarAt scope.now ty value }
    ensures { origin_of result ≡ scalar_of (scope_in scope.now.lists scope.now.function) (tree scope.now.lists.table ty) (value_of scope.now.lists scope.now.function value) }
{
    match value {
        Value::Local(id) => local_leaf(scope, id),
        Value::Known(id) => Origin::Known(leaf_of(scope.names(), ty, id)),
    }
}

/// Where the one leaf of an operand is had from that is an integer or a pointer.
pub fn operand_leaf(scope: &FunctionScope<'_, '_>, operand: Operand) -> Origin
    requires { HasScalar scope.now operand }
    ensures { origin_of result ≡ scalar_in (scope_in scope.now.lists scope.now.function) (operand_of scope.now.lists scope.now.function operand) }
{
    value_leaf(scope, operand.ty, operand.value)
}

/// Where a callee is had from, before which no type is written.
pub fn callee_leaf(scope: &FunctionScope<'_, '_>, value: Value) -> Origin
    requires there { HasValue scope.now value }
    requires stands { StandsAt scope.now ptr value }
    ensures { origin_of result ≡ scalar_of (scope_in scope.now.lists scope.now.function) ptr (value_of scope.now.lists scope.now.function value) }
{
    match value {
        Value::Local(id) => local_leaf(scope, id),
        Value::Known(id) => Origin::Known(pointer_leaf(scope.names(), id)),
    }
}

/// Appends the places from one up to another.
fn push_places(into: &mut Vec<Origin>, begin: u32, end: u32) -> Result<(), AllocError>
    requires { begin ≤ end }
    ensures { OnOk result (Gains into.old.items into.new.items (map actions.Held (range_with_len begin (end - begin)))) }
{
    'places: for place in begin..end {
        into.push(Origin::Held(place))?;
    }
    Ok(())
}

/// Appends leaves that are known.
fn push_known(into: &mut Vec<Origin>, leaves: &[Scalar]) -> Result<(), AllocError>
    ensures { OnOk result (Gains into.old.items into.new.items (map actions.Known leaves.now)) }
{
    'leaves: for leaf in leaves {
        into.push(Origin::Known(*leaf))?;
    }
    Ok(())
}

/// Appends where the leaves of a parameter or result are had from.
fn push_local(
    scope: &FunctionScope<'_, '_>,
    id: ValueId,
    into: &mut Vec<Origin>,
) -> Result<(), AllocError>
    requires { HasValue scope.now (Value.Local id) }
    ensures { OnOk result ((ty : Tree) → Gains into.old.items into.new.items (value_in (scope_in scope.now.lists scope.now.function) ty (value_of scope.now.lists scope.now.function (Value.Local id)))) }
{
    let (begin, end) = scope.bounds(id);
    push_places(into, begin, end)
}

/// Appends the leaves of a constant at that type.
fn push_constant(
    scope: &FunctionScope<'_, '_>,
    ty: TypeId,
    id: ConstId,
    into: &mut Vec<Origin>,
) -> Result<(), AllocError>
    requires { HasValueAt scope.now ty (Value.Known id) }
    ensures { OnOk result (Gains into.old.items into.new.items (map actions.Known (constant_value (names_of scope.now.lists) (tree scope.now.lists.table ty) (constant_of scope.now.lists id)))) }
{
    let mut leaves = Vec::new(scope.alloc());
    push_leaves(scope.names(), ty, id, &mut leaves)?;
    push_known(into, &leaves)
}

/// Appends where the leaves of a value at that type are had from, in order. It is refused for want of memory alone, and may then have
/// appended some.
pub fn push_value(
    scope: &FunctionScope<'_, '_>,
    ty: TypeId,
    value: Value,
    into: &mut Vec<Origin>,
) -> Result<(), AllocError>
    requires { HasValueAt scope.now ty value }
    ensures { OnOk result (Gains into.old.items into.new.items (value_in (scope_in scope.now.lists scope.now.function) (tree scope.now.lists.table ty) (value_of scope.now.lists scope.now.function value))) }
{
    match value {
        Value::Local(id) => push_local(scope, id, into),
        Value::Known(id) => push_constant(scope, ty, id, into),
    }
}

/// Appends where the leaves of operands are had from, those of one behind those of the one before. It is refused for want of memory
/// alone, and may then have appended some.
pub fn push_operands(
    scope: &FunctionScope<'_, '_>,
    operands: &[Operand],
    into: &mut Vec<Origin>,
) -> Result<(), AllocError>
    requires { All (HasOperand scope.now) operands.now }
    ensures { OnOk result (Gains into.old.items into.new.items (flat_map (operand_in (scope_in scope.now.lists scope.now.function)) (map (operand_of scope.now.lists scope.now.function) operands.now))) }
{
    'operands: for operand in operands {
        push_value(scope, operand.ty, operand.value, into)?;
    }
    Ok(())
}
