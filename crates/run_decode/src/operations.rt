//! Instructions on values as actions, one function a phrase (LangRef, "Binary Operations", "Conversion Operations", "Other Operations").
ghost use Rattle.std.specs.Prelude.{IfOk, OnOk};
ghost use Rattle.module_arena.specs.declared.instruction.Inst.TheVariants as inst;
ghost use Rattle.run_decode.specs.Flat.Grown.{Adds, IsLeaf};
ghost use Rattle.run_decode.specs.Scopes.Scopes.{HasScalarAt, scope_in, value_of};
ghost use Rattle.run_rules.specs.Scope.{scalar_of};
ghost use Rattle.type_table.specs.Types.{tree};
ghost use Rattle.run_decode.specs.Operands.Suits.{HasCast, HasChoice, HasExtraction, HasInsertion, HasPair, HasStored, IsResult};
ghost use Rattle.run_decode.specs.Operations.{Meant};

use crate::flat::{Action, LeafAt, Pools};
use crate::operands::{put_arms, put_extracted, put_inserted, put_parts, put_scalar};
use crate::scopes::FunctionScope;
use ir_tables::{Flag, Flags, Opcode, Predicate};
use module_arena::{Choice, Insertion, Operand, Value, ValueId};
use run_names::shapes::width;
use std::alloc::AllocError;
use type_table::TypeId;

/// Puts the one leaf of an integer or a pointer, whose type is written before another.
fn put_second(
    scope: &FunctionScope<'_, '_>,
    pools: &mut Pools,
    ty: TypeId,
    value: Value,
) -> Result<LeafAt, AllocError>
    requires { HasScalarAt scope.now ty value }
    ensures grows { OnOk result (Adds pools.old pools.new) }
    ensures leaf { IfOk result (λ at. IsLeaf pools.new at (scalar_of (scope_in scope.now.lists scope.now.function) (tree scope.now.lists.table ty) (value_of scope.now.lists scope.now.function value))) }
{
    put_scalar(scope, pools, Operand { ty, value })
}

/// A binary instruction.
pub(crate) fn put_binary(
    scope: &FunctionScope<'_, '_>,
    pools: &mut Pools,
    operation: (Opcode, Flags),
    to: ValueId,
    left: &Operand,
    right: Value,
) -> Result<Action, AllocError>
    requires to { IsResult scope.now to }
    requires pair { HasPair scope.now left.now right }
    ensures grows { OnOk result (Adds pools.old pools.new) }
    ensures action { IfOk result (Meant scope.now pools.new (inst.Binary operation.0 operation.1 to left.now right)) }
{
    let first = put_scalar(scope, pools, *left)?;
    let second = put_second(scope, pools, left.ty, right)?;
    Ok(Action::Compute {
        to: scope.to(Some(to)),
        opcode: operation.0,
        flags: operation.1,
        width: width(scope.types(), left.ty),
        left: first,
        right: second,
    })
}

/// `icmp`
pub(crate) fn put_compare(
    scope: &FunctionScope<'_, '_>,
    pools: &mut Pools,
    operation: (Flags, Predicate),
    to: ValueId,
    left: &Operand,
    right: Value,
) -> Result<Action, AllocError>
    requires to { IsResult scope.now to }
    requires pair { HasPair scope.now left.now right }
    ensures grows { OnOk result (Adds pools.old pools.new) }
    ensures action { IfOk result (Meant scope.now pools.new (inst.Compare operation.0 operation.1 to left.now right)) }
{
    let first = put_scalar(scope, pools, *left)?;
    let second = put_second(scope, pools, left.ty, right)?;
    Ok(Action::Compare {
        to: scope.to(Some(to)),
        predicate: operation.1,
        samesign: operation.0.has(Flag::Samesign),
        width: width(scope.types(), left.ty),
        left: first,
        right: second,
    })
}

/// A cast.
pub(crate) fn put_convert(
    scope: &FunctionScope<'_, '_>,
    pools: &mut Pools,
    operation: (Opcode, Flags),
    to: ValueId,
    operand: &Operand,
    ty: TypeId,
) -> Result<Action, AllocError>
    requires to { IsResult scope.now to }
    requires cast { HasCast scope.now operand.now ty }
    ensures grows { OnOk result (Adds pools.old pools.new) }
    ensures action { IfOk result (Meant scope.now pools.new (inst.Convert operation.0 operation.1 to operand.now ty)) }
{
    let value = put_scalar(scope, pools, *operand)?;
    Ok(Action::Convert {
        to: scope.to(Some(to)),
        opcode: operation.0,
        flags: operation.1,
        from_width: width(scope.types(), operand.ty),
        to_width: width(scope.types(), ty),
        value,
    })
}

/// `select`
pub(crate) fn put_select(
    scope: &FunctionScope<'_, '_>,
    pools: &mut Pools,
    to: ValueId,
    choice: &Choice,
) -> Result<Action, AllocError>
    requires to { IsResult scope.now to }
    requires choice { HasChoice scope.now choice.now }
    ensures grows { OnOk result (Adds pools.old pools.new) }
    ensures action { IfOk result (Meant scope.now pools.new (inst.Select to choice.now)) }
{
    let condition = put_scalar(scope, pools, choice.condition)?;
    let arms = put_arms(scope, pools, choice.first, choice.second)?;
    Ok(Action::Select {
        to: scope.to(Some(to)),
        condition,
        arms,
    })
}

/// `freeze`
pub(crate) fn put_freeze(
    scope: &FunctionScope<'_, '_>,
    pools: &mut Pools,
    to: ValueId,
    operand: Operand,
) -> Result<Action, AllocError>
    requires to { IsResult scope.now to }
    requires operand { HasStored scope.now operand }
    ensures grows { OnOk result (Adds pools.old pools.new) }
    ensures action { IfOk result (Meant scope.now pools.new (inst.Freeze to operand)) }
{
    let parts = put_parts(scope, pools, operand)?;
    Ok(Action::Freeze {
        to: scope.to(Some(to)),
        parts,
    })
}

/// `extractvalue`
pub(crate) fn put_extract(
    scope: &FunctionScope<'_, '_>,
    pools: &mut Pools,
    to: ValueId,
    aggregate: Operand,
    indices: &[u32],
) -> Result<Action, AllocError>
    requires to { IsResult scope.now to }
    requires extraction { HasExtraction scope.now aggregate indices.now }
    ensures grows { OnOk result (Adds pools.old pools.new) }
    ensures action { IfOk result (Meant scope.now pools.new (inst.ExtractValue to aggregate indices.now)) }
{
    let value = put_extracted(scope, pools, aggregate, indices)?;
    Ok(Action::Gather {
        to: scope.to(Some(to)),
        value,
    })
}

/// `insertvalue`
pub(crate) fn put_insert(
    scope: &FunctionScope<'_, '_>,
    pools: &mut Pools,
    to: ValueId,
    insertion: &Insertion,
) -> Result<Action, AllocError>
    requires to { IsResult scope.now to }
    requires insertion { HasInsertion scope.now insertion.now }
    ensures grows { OnOk result (Adds pools.old pools.new) }
    ensures action { IfOk result (Meant scope.now pools.new (inst.InsertValue to insertion.now)) }
{
    let indices = insertion.indices.as_slice();
    let value = put_inserted(scope, pools, insertion.aggregate, insertion.part, indices)?;
    Ok(Action::Gather {
        to: scope.to(Some(to)),
        value,
    })
}
