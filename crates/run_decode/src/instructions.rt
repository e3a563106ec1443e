//! Instructions as actions.
ghost use Rattle.std.specs.Prelude.{◌≡◌, IfOk, OnOk, false};
ghost use Rattle.run_decode.specs.Flat.Grown.{Adds, Grows};
ghost use Rattle.run_decode.specs.Signatures.Numbers.{AreNumbered, Numbers};
ghost use Rattle.run_decode.specs.Operands.Suits.{Suits};
ghost use Rattle.run_decode.specs.Operations.{Meant, is_call};

use crate::calls::put_call;
use crate::flat::{Action, Pools};
use crate::memory::{put_alloca, put_displace, put_load, put_store};
use crate::operations::{
    put_binary, put_compare, put_convert, put_extract, put_freeze, put_insert, put_select,
};
use crate::scopes::FunctionScope;
use crate::signatures::Signatures;
use module_arena::Inst;
use std::alloc::AllocError;

/// The action of an instruction that is no call.
fn put_operation(
    scope: &FunctionScope<'_, '_>,
    pools: &mut Pools,
    instruction: &Inst,
) -> Result<Action, AllocError>
    requires suits { Suits scope.now instruction.now }
    requires other { is_call instruction.now ≡ false }
    ensures grows { OnOk result (Adds pools.old pools.new) }
    ensures action { IfOk result (Meant scope.now pools.new instruction.now) }
{
    match instruction {
        Inst::Binary(opcode, flags, to, left, right) => {
            put_binary(scope, pools, (*opcode, *flags), *to, left, *right)
        }
        Inst::Compare(flags, predicate, to, left, right) => {
            put_compare(scope, pools, (*flags, *predicate), *to, left, *right)
        }
        Inst::Convert(opcode, flags, to, operand, ty) => {
            put_convert(scope, pools, (*opcode, *flags), *to, operand, *ty)
        }
        Inst::Select(to, choice) => put_select(scope, pools, *to, choice.get()),
        Inst::Freeze(to, operand) => put_freeze(scope, pools, *to, *operand),
        Inst::Phi(_, _, _) => Ok(Action::Passed),
        Inst::Load(_, to, ty, address, align) => {
            put_load(scope, pools, *to, *ty, *address, *align)
        }
        Inst::Store(_, stored, address, align) => {
            put_store(scope, pools, stored, *address, *align)
        }
        Inst::Alloca(to, ty, count, align) => put_alloca(scope, pools, *to, *ty, *count, *align),
        Inst::GetElementPtr(flags, to, source, base, indices) => {
            put_displace(
                scope,
                pools,
                (*flags, *to),
                *source,
                *base,
                indices.as_slice(),
            )
        }
        Inst::ExtractValue(to, aggregate, indices) => {
            put_extract(scope, pools, *to, *aggregate, indices.as_slice())
        }
        Inst::InsertValue(to, insertion) => put_insert(scope, pools, *to, insertion.get()),
        Inst::Call(_) => unreachable!(),
    }
}

/// The action of an instruction. The function type of a call gets a number.
pub(crate) fn put_instruction(
    scope: &FunctionScope<'_, '_>,
    pools: &mut Pools,
    signatures: &mut Signatures<'_>,
    instruction: &Inst,
) -> Result<Action, AllocError>
    requires lists { signatures.old.lists ≡ scope.now.lists }
    requires numbered { AreNumbered signatures.old scope.now.lists pools.old }
    requires suits { Suits scope.now instruction.now }
    ensures grows { OnOk result (Grows pools.old pools.new) }
    ensures numbers { Numbers signatures.old signatures.new }
    ensures numbered { OnOk result (AreNumbered signatures.new scope.now.lists pools.new) }
    ensures action { IfOk result (Meant scope.now pools.new instruction.now) }
{
    match instruction {
        Inst::Call(call) => put_call(scope, pools, signatures, call.get()),
        _ => put_operation(scope, pools, instruction),
    }
}
