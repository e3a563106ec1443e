//! The leaves of operands in the pools of a body.
ghost use Rattle.std.specs.Prelude.{◌≡◌, All, IfOk, OnOk, flat_map, map};
ghost use Rattle.type_table.specs.Tree.{ptr};
ghost use Rattle.run_rules.specs.Resolve.{extracted, inserted};
ghost use Rattle.run_rules.specs.Scope.{operand_in, scalar_in, scalar_of};
ghost use Rattle.run_decode.specs.Scopes.Places.{HasPart};
ghost use Rattle.run_decode.specs.Scopes.Scopes.{HasOperand, HasScalar, HasValue, StandsAt, operand_of, scope_in, value_of};
ghost use Rattle.run_decode.specs.Flat.Grown.{Adds, AreLeaves, IsLeaf};
ghost use Rattle.run_decode.specs.Operands.Pairs.{origins_in};

use crate::flat::{LeafAt, Pools, Span};
use crate::operands::pooled::{put_leaf, put_leaves};
use crate::scopes::{
    FunctionScope, callee_leaf, operand_leaf, push_extracted, push_inserted, push_operands,
    push_value,
};
use module_arena::{Operand, Value};
use std::alloc::AllocError;

/// Puts the one leaf of an operand that is an integer or a pointer. It is refused for want of memory alone.
pub fn put_scalar(
    scope: &FunctionScope<'_, '_>,
    pools: &mut Pools,
    operand: Operand,
) -> Result<LeafAt, AllocError>
    requires { HasScalar scope.now operand }
    ensures grows { OnOk result (Adds pools.old pools.new) }
    ensures leaf { IfOk result (λ at. IsLeaf pools.new at (scalar_in (scope_in scope.now.lists scope.now.function) (operand_of scope.now.lists scope.now.function operand))) }
{
    put_leaf(pools, operand_leaf(scope, operand))
}

/// Puts a callee, before which no type is written. It is refused for want of memory alone.
pub fn put_callee(
    scope: &FunctionScope<'_, '_>,
    pools: &mut Pools,
    value: Value,
) -> Result<LeafAt, AllocError>
    requires there { HasValue scope.now value }
    requires stands { StandsAt scope.now ptr value }
    ensures grows { OnOk result (Adds pools.old pools.new) }
    ensures leaf { IfOk result (λ at. IsLeaf pools.new at (scalar_of (scope_in scope.now.lists scope.now.function) ptr (value_of scope.now.lists scope.now.function value))) }
{
    put_leaf(pools, callee_leaf(scope, value))
}

/// Puts the leaves of an operand among the origins. It is refused for want of memory alone.
pub fn put_operand(
    scope: &FunctionScope<'_, '_>,
    pools: &mut Pools,
    operand: Operand,
) -> Result<Span, AllocError>
    requires { HasOperand scope.now operand }
    ensures grows { OnOk result (Adds pools.old pools.new) }
    ensures leaves { IfOk result (λ span. AreLeaves pools.new span (origins_in scope.now operand)) }
{
    let mut leaves = Vec::new(scope.alloc());
    push_value(scope, operand.ty, operand.value, &mut leaves)?;
    put_leaves(pools, &leaves)
}

/// Puts the leaves of operands among the origins, those of one behind those of the one before. It is refused for want of memory alone.
pub fn put_operands(
    scope: &FunctionScope<'_, '_>,
    pools: &mut Pools,
    operands: &[Operand],
) -> Result<Span, AllocError>
    requires { All (HasOperand scope.now) operands.now }
    ensures grows { OnOk result (Adds pools.old pools.new) }
    ensures leaves { IfOk result (λ span. AreLeaves pools.new span (flat_map (operand_in (scope_in scope.now.lists scope.now.function)) (map (operand_of scope.now.lists scope.now.function) operands.now))) }
{
    let mut leaves = Vec::new(scope.alloc());
    push_operands(scope, operands, &mut leaves)?;
    put_leaves(pools, &leaves)
}

/// Puts the leaves of a part of an operand among the origins (LangRef, "extractvalue Instruction"). It is refused for want of memory
/// alone.
pub fn put_extracted(
    scope: &FunctionScope<'_, '_>,
    pools: &mut Pools,
    aggregate: Operand,
    indices: &[u32],
) -> Result<Span, AllocError>
    requires aggregate { HasOperand scope.now aggregate }
    requires part { HasPart scope.now.lists aggregate.ty indices.now }
    ensures grows { OnOk result (Adds pools.old pools.new) }
    ensures leaves { IfOk result (λ span. AreLeaves pools.new span (extracted (scope_in scope.now.lists scope.now.function) (operand_of scope.now.lists scope.now.function aggregate) indices.now)) }
{
    let mut leaves = Vec::new(scope.alloc());
    push_extracted(scope, aggregate, indices, &mut leaves)?;
    put_leaves(pools, &leaves)
}

/// Puts the leaves of an operand among the origins, with those of a part replaced (LangRef, "insertvalue Instruction"). It is refused
/// for want of memory alone.
pub fn put_inserted(
    scope: &FunctionScope<'_, '_>,
    pools: &mut Pools,
    aggregate: Operand,
    new: Operand,
    indices: &[u32],
) -> Result<Span, AllocError>
    requires aggregate { HasOperand scope.now aggregate }
    requires new { HasOperand scope.now new }
    requires part { HasPart scope.now.lists aggregate.ty indices.now }
    ensures grows { OnOk result (Adds pools.old pools.new) }
    ensures leaves { IfOk result (λ span. AreLeaves pools.new span (inserted (scope_in scope.now.lists scope.now.function) (operand_of scope.now.lists scope.now.function aggregate) (operand_of scope.now.lists scope.now.function new) indices.now)) }
{
    let mut leaves = Vec::new(scope.alloc());
    push_inserted(scope, aggregate, new, indices, &mut leaves)?;
    put_leaves(pools, &leaves)
}
