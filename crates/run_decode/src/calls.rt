//! Calls as actions (LangRef, "call Instruction").
ghost use Rattle.std.specs.Prelude.{◌≡◌, ◌++◌, IfOk, OnOk, map};
ghost use Rattle.module_arena.specs.declared.instruction.Inst.TheVariants as inst;
ghost use Rattle.run_decode.specs.Flat.Grown.{Adds, Grows};
ghost use Rattle.run_decode.specs.Flat.Spans.{IsSpanIn, spanned};
ghost use Rattle.run_decode.specs.Signatures.Numbers.{AreNumbered, Numbers};
ghost use Rattle.run_decode.specs.Operands.Suits.{HasCall};
ghost use Rattle.run_decode.specs.Calls.{IsCallOf};
ghost use Rattle.run_decode.specs.Operations.{Meant};

use crate::flat::{Action, CallParts, Pools, Span};
use crate::operands::{put_callee, put_operands};
use crate::scopes::FunctionScope;
use crate::signatures::Signatures;
use module_arena::{Call, Operand};
use std::alloc::AllocError;

/// Puts the types of operands among the types, in order.
fn put_types(pools: &mut Pools, operands: &[Operand]) -> Result<Span, AllocError>
    ensures grows { OnOk result (Adds pools.old pools.new) }
    ensures within { IfOk result (IsSpanIn pools.new.types) }
    ensures types { IfOk result (λ span. spanned pools.new.types span ≡ map (λ o. o.ty) operands.now) }
{
    let first = pools.types.len();
    'operands: for operand in operands {
        pools.types.push(operand.ty)?;
    }
    pools.types.since(first)
}

/// Puts the parts of a call but for its result and its callee among the calls, and gives their place. Its function type gets a number.
fn put_call_parts(
    scope: &FunctionScope<'_, '_>,
    pools: &mut Pools,
    signatures: &mut Signatures<'_>,
    call: &Call,
) -> Result<u32, AllocError>
    requires lists { signatures.old.lists ≡ scope.now.lists }
    requires numbered { AreNumbered signatures.old scope.now.lists pools.old }
    requires call { HasCall scope.now call.now }
    ensures grows { OnOk result (Grows pools.old pools.new) }
    ensures numbers { Numbers signatures.old signatures.new }
    ensures numbered { OnOk result (AreNumbered signatures.new scope.now.lists pools.new) }
    ensures call { IfOk result (λ place. IsCallOf scope.now pools.new place call.now) }
{
    let signature = &call.signature;
    let parameters = signature.parameters.as_slice();
    let number = signatures.number(signature.returns, parameters, signature.variadic)?;
    let parameters = pools.types.append(parameters)?;
    let shapes = put_types(pools, call.arguments.as_slice())?;
    let arguments = put_operands(scope, pools, call.arguments.as_slice())?;
    let place = pools.calls.push(CallParts {
        signature: number,
        returns: signature.returns,
        parameters,
        variadic: signature.variadic,
        shapes,
        arguments,
    })?;
    Ok(place)
}

/// `call`: its function type gets a number.
pub(crate) fn put_call(
    scope: &FunctionScope<'_, '_>,
    pools: &mut Pools,
    signatures: &mut Signatures<'_>,
    call: &Call,
) -> Result<Action, AllocError>
    requires lists { signatures.old.lists ≡ scope.now.lists }
    requires numbered { AreNumbered signatures.old scope.now.lists pools.old }
    requires call { HasCall scope.now call.now }
    ensures grows { OnOk result (Grows pools.old pools.new) }
    ensures numbers { Numbers signatures.old signatures.new }
    ensures numbered { OnOk result (AreNumbered signatures.new scope.now.lists pools.new) }
    ensures action { IfOk result (Meant scope.now pools.new (inst.Call call.now)) }
{
    let callee = put_callee(scope, pools, call.callee)?;
    let parts = put_call_parts(scope, pools, signatures, call)?;
    Ok(Action::Call {
        to: scope.to(call.result),
        callee,
        call: parts,
    })
}
