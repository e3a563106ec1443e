//! Casts between integers of two widths, and between integers and pointers.
ghost use Rattle.std.specs.Prelude.{◌≡◌, ◌^◌, ◌<◌};
ghost use Rattle.ir_eval.specs.Value.{IsWidth};
ghost use Rattle.ir_eval.specs.Cast.{truncated_of, zero_extended_of, sign_extended_of, address_of, pointer_of, cast_of, IsCast, IsCastTo, IsFreeOfBlocks};

use crate::width::{fits_signed, greatest, has_sign, low_bits, reduced, signed};
use crate::{Pointer, Scalar};
use ir_tables::{Flag, Flags, Opcode};

/// The cast of an integer, a pointer or poison. Widths are from 1 to 128, and that of a pointer is written
/// 64; `trunc` narrows, `zext` and `sext` widen.
#[tactic(auto, using(crate::proofs::Ranges::cast_kind, crate::proofs::Ranges::cast_block), unfolding(crate::specs::Cast::cast_of))]
#[inline(always)]
pub fn cast(op: Opcode, flags: Flags, from: u8, to: u8, operand: Scalar) -> Scalar
    requires from { IsWidth from }
    requires to { IsWidth to }
    requires cast { IsCast op from to operand }
    ensures value { result ≡ cast_of op flags from to operand }
    ensures kind { IsCastTo op to result }
    ensures block { IsFreeOfBlocks op result }
{
    match (op, operand) {
        (Opcode::Trunc, Scalar::Int(number)) => truncated(flags, from, to, number),
        (Opcode::ZExt, Scalar::Int(number)) => zero_extended(flags, from, number),
        (Opcode::SExt, Scalar::Int(number)) => sign_extended(from, to, number),
        (Opcode::PtrToInt, Scalar::Ptr(pointer)) => address_of(to, pointer),
        (Opcode::IntToPtr, Scalar::Int(number)) => pointer_of(number),
        _ => Scalar::Poison,
    }
}

fn truncated(flags: Flags, from: u8, to: u8, number: u128) -> Scalar
    requires from { IsWidth from }
    requires to { IsWidth to }
    requires number { number < 2 ^ from }
    ensures { result ≡ truncated_of flags from to number }
{
    if flags.has(Flag::Nuw) && number > greatest(to) {
        return Scalar::Poison;
    }
    if flags.has(Flag::Nsw) && !fits_signed(to, Some(signed(from, number))) {
        return Scalar::Poison;
    }
    Scalar::Int(low_bits(to, number))
}

fn zero_extended(flags: Flags, from: u8, number: u128) -> Scalar
    requires { IsWidth from }
    ensures { result ≡ zero_extended_of flags from number }
{
    if flags.has(Flag::Nneg) && has_sign(from, number) {
        return Scalar::Poison;
    }
    Scalar::Int(number)
}

fn sign_extended(from: u8, to: u8, number: u128) -> Scalar
    requires from { IsWidth from }
    requires to { IsWidth to }
    requires number { number < 2 ^ from }
    ensures { result ≡ sign_extended_of from to number }
{
    Scalar::Int(reduced(to, signed(from, number)))
}

fn address_of(to: u8, pointer: Pointer) -> Scalar
    requires { IsWidth to }
    ensures { result ≡ address_of to pointer }
{
    Scalar::Int(low_bits(to, u128::from(pointer.address)))
}

fn pointer_of(number: u128) -> Scalar
    ensures { result ≡ pointer_of number }
{
    Scalar::Ptr(Pointer {
        block: None,
        address: (number & u128::from(u64::MAX)) as u64,
    })
}
