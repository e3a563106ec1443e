//! Bits of two integers, one by one.
ghost use Rattle.std.specs.Prelude.{◌≡◌};
ghost use Rattle.ir_eval.specs.Bitwise.{conjunction_of, disjunction_of, exclusive_of};

use crate::Scalar;
use ir_tables::{Flag, Flags};

/// `and`.
pub fn conjunction(a: u128, b: u128) -> Scalar
    ensures { result ≡ conjunction_of a b }
{
    Scalar::Int(a & b)
}

/// `or`: `disjoint` gives poison where both have a bit set.
pub fn disjunction(flags: Flags, a: u128, b: u128) -> Scalar
    ensures { result ≡ disjunction_of flags a b }
{
    if flags.has(Flag::Disjoint) && a & b != 0 {
        return Scalar::Poison;
    }
    Scalar::Int(a | b)
}

/// `xor`.
pub fn exclusive(a: u128, b: u128) -> Scalar
    ensures { result ≡ exclusive_of a b }
{
    Scalar::Int(a ^ b)
}
