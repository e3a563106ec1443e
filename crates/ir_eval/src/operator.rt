//! The binary instructions.
ghost use Rattle.std.specs.Prelude.{◌≡◌, ◌^◌, ◌<◌, IsTrue, IfOk};
ghost use Rattle.ir_eval.specs.Value.{IsWidth, IsInteger};
ghost use Rattle.ir_eval.specs.Operators.{is_binary, is_division, is_no_divisor, integers, binary_of};

use crate::Scalar;
use crate::arithmetic::{difference, product, sum};
use crate::bitwise::{conjunction, disjunction, exclusive};
use crate::division::{quotient, remainder, signed_quotient, signed_remainder};
use crate::shift::{shifted_left, shifted_right, signed_shifted_right};
use ir_tables::{Flags, Opcode, UndefinedKind};

fn is_division(op: Opcode) -> bool
    ensures { result ≡ is_division op }
{
    matches!(
        op,
        Opcode::UDiv | Opcode::SDiv | Opcode::URem | Opcode::SRem
    )
}

fn is_no_divisor(b: Scalar) -> bool
    ensures { result ≡ is_no_divisor b }
{
    matches!(b, Scalar::Int(0) | Scalar::Poison)
}

/// The binary instruction on two integers of a width from 1 to 128, or poison. It refuses a division by
/// zero or by poison, and the quotient and the remainder of the least value by -1.
#[tactic(auto, using(crate::proofs::Ranges::binary_kind), unfolding(crate::specs::Operators::binary_of))]
#[inline(always)]
pub fn binary(
    op: Opcode,
    flags: Flags,
    width: u8,
    a: Scalar,
    b: Scalar,
) -> Result<Scalar, UndefinedKind>
    requires binary { IsTrue (is_binary op) }
    requires width { IsWidth width }
    requires a { IsInteger width a }
    requires b { IsInteger width b }
    ensures value { result ≡ binary_of op flags width a b }
    ensures kind { IfOk result (IsInteger width) }
{
    if is_division(op) && is_no_divisor(b) {
        return Err(UndefinedKind::DivisionByZero);
    }
    match (a, b) {
        (Scalar::Int(a), Scalar::Int(b)) => integers(op, flags, width, a, b),
        _ => Ok(Scalar::Poison),
    }
}

/// A division or a remainder, where there is a divisor.
#[inline(never)]
fn divided(op: Opcode, flags: Flags, width: u8, a: u128, b: u128) -> Result<Scalar, UndefinedKind>
    requires division { IsTrue (is_division op) }
    requires width { IsWidth width }
    requires a { a < 2 ^ width }
    requires b { b < 2 ^ width }
    requires divisor { 0 < b }
    ensures { result ≡ integers op flags width a b }
{
    match op {
        Opcode::UDiv => Ok(quotient(flags, a, b)),
        Opcode::SDiv => signed_quotient(flags, width, a, b),
        Opcode::URem => Ok(remainder(a, b)),
        Opcode::SRem => signed_remainder(width, a, b),
        _ => unreachable!(),
    }
}

#[inline(always)]
fn integers(op: Opcode, flags: Flags, width: u8, a: u128, b: u128) -> Result<Scalar, UndefinedKind>
    requires binary { IsTrue (is_binary op) }
    requires width { IsWidth width }
    requires a { a < 2 ^ width }
    requires b { b < 2 ^ width }
    requires divisor { IsTrue (is_division op) → 0 < b }
    ensures { result ≡ integers op flags width a b }
{
    match op {
        Opcode::Add => Ok(sum(flags, width, a, b)),
        Opcode::Sub => Ok(difference(flags, width, a, b)),
        Opcode::Mul => Ok(product(flags, width, a, b)),
        Opcode::UDiv | Opcode::SDiv | Opcode::URem | Opcode::SRem => {
            divided(op, flags, width, a, b)
        }
        Opcode::Shl => Ok(shifted_left(flags, width, a, b)),
        Opcode::LShr => Ok(shifted_right(flags, width, a, b)),
        Opcode::AShr => Ok(signed_shifted_right(flags, width, a, b)),
        Opcode::And => Ok(conjunction(a, b)),
        Opcode::Or => Ok(disjunction(flags, a, b)),
        Opcode::Xor => Ok(exclusive(a, b)),
        _ => unreachable!(),
    }
}
