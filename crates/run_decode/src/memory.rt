//! Instructions on memory as actions, one function a phrase (LangRef, "Memory Access and Addressing Operations").
ghost use Rattle.std.specs.Prelude.{◌≡◌, ℕ, IfOk, IfSome, OnOk, unwrap_or};
ghost use Rattle.module_arena.specs.declared.instruction.Inst.TheVariants as inst;
ghost use Rattle.type_table.specs.Layout as layouts;
ghost use Rattle.run_names.specs.Shapes.Shapes.{shape_in};
ghost use Rattle.run_decode.specs.Flat.Grown.{Adds, IsLeaf};
ghost use Rattle.run_decode.specs.Scopes.Scopes.{HasScalar};
ghost use Rattle.run_decode.specs.Operands.Suits.{HasLoad, HasSteps, HasStore, IsResult, Lies};
ghost use Rattle.run_decode.specs.Operations.{Meant, count_in};

use crate::flat::{Action, LeafAt, Pools};
use crate::operands::{put_known, put_operand, put_scalar, put_slots, put_steps};
use crate::scopes::FunctionScope;
use ir_eval::Scalar;
use ir_tables::{Flag, Flags};
use module_arena::{Operand, ValueId};
use run_names::shapes::layout_of;
use std::alloc::AllocError;
use type_table::TypeId;

/// The alignment that is stated, or else the type's. In bytes.
fn align_of(scope: &FunctionScope<'_, '_>, stated: Option<u32>, ty: TypeId) -> u32
    requires { Lies scope.now.lists ty }
    ensures { result ≡ unwrap_or stated (layouts.align (shape_in scope.now.lists.table ty)) }
{
    match stated {
        Some(align) => align,
        None => layout_of(scope.types(), ty).align,
    }
}

/// `load`
pub(crate) fn put_load(
    scope: &FunctionScope<'_, '_>,
    pools: &mut Pools,
    to: ValueId,
    ty: TypeId,
    address: Operand,
    alignment: Option<u32>,
) -> Result<Action, AllocError>
    requires to { IsResult scope.now to }
    requires load { HasLoad scope.now ty address }
    ensures grows { OnOk result (Adds pools.old pools.new) }
    ensures action { (flags : ℕ) → IfOk result (Meant scope.now pools.new (inst.Load flags to ty address alignment)) }
{
    let slots = put_slots(scope.alloc(), pools, scope.types(), ty)?;
    let address = put_scalar(scope, pools, address)?;
    Ok(Action::Load {
        to: scope.to(Some(to)),
        align: align_of(scope, alignment, ty),
        address,
        slots,
    })
}

/// `store`
pub(crate) fn put_store(
    scope: &FunctionScope<'_, '_>,
    pools: &mut Pools,
    stored: &Operand,
    address: Operand,
    alignment: Option<u32>,
) -> Result<Action, AllocError>
    requires { HasStore scope.now stored.now address }
    ensures grows { OnOk result (Adds pools.old pools.new) }
    ensures action { (flags : ℕ) → IfOk result (Meant scope.now pools.new (inst.Store flags stored.now address alignment)) }
{
    let slots = put_slots(scope.alloc(), pools, scope.types(), stored.ty)?;
    let value = put_operand(scope, pools, *stored)?;
    let address = put_scalar(scope, pools, address)?;
    Ok(Action::Store {
        align: align_of(scope, alignment, stored.ty),
        address,
        slots,
        value,
    })
}

/// The count of an `alloca`: 1 where none is written.
fn put_count(
    scope: &FunctionScope<'_, '_>,
    pools: &mut Pools,
    count: Option<Operand>,
) -> Result<LeafAt, AllocError>
    requires { IfSome count (HasScalar scope.now) }
    ensures grows { OnOk result (Adds pools.old pools.new) }
    ensures leaf { IfOk result (λ at. IsLeaf pools.new at (count_in scope.now count)) }
{
    match count {
        Some(operand) => put_scalar(scope, pools, operand),
        None => put_known(pools, Scalar::Int(1)),
    }
}

/// `alloca`
pub(crate) fn put_alloca(
    scope: &FunctionScope<'_, '_>,
    pools: &mut Pools,
    to: ValueId,
    ty: TypeId,
    count: Option<Operand>,
    alignment: Option<u32>,
) -> Result<Action, AllocError>
    requires to { IsResult scope.now to }
    requires lies { Lies scope.now.lists ty }
    requires count { IfSome count (HasScalar scope.now) }
    ensures grows { OnOk result (Adds pools.old pools.new) }
    ensures action { IfOk result (Meant scope.now pools.new (inst.Alloca to ty count alignment)) }
{
    let count = put_count(scope, pools, count)?;
    Ok(Action::Allocate {
        to: scope.to(Some(to)),
        align: align_of(scope, alignment, ty),
        size: layout_of(scope.types(), ty).size,
        count,
    })
}

/// `getelementptr`
pub(crate) fn put_displace(
    scope: &FunctionScope<'_, '_>,
    pools: &mut Pools,
    operation: (Flags, ValueId),
    source: TypeId,
    base: Operand,
    indices: &[Operand],
) -> Result<Action, AllocError>
    requires to { IsResult scope.now operation.1 }
    requires steps { HasSteps scope.now source base indices.now }
    ensures grows { OnOk result (Adds pools.old pools.new) }
    ensures action { IfOk result (Meant scope.now pools.new (inst.GetElementPtr operation.0 operation.1 source base indices.now)) }
{
    let base = put_scalar(scope, pools, base)?;
    let (terms, sum) = put_steps(scope, pools, source, indices)?;
    Ok(Action::Displace {
        to: scope.to(Some(operation.1)),
        inbounds: operation.0.has(Flag::Inbounds),
        base,
        terms,
        sum,
    })
}
