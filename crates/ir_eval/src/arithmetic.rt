//! Sums, differences and products.
ghost use Rattle.std.specs.Prelude.{◌≡◌, ◌^◌, ◌<◌};
ghost use Rattle.ir_eval.specs.Value.{IsWidth};
ghost use Rattle.ir_eval.specs.Arithmetic.{sum_of, difference_of, product_of};

use crate::Scalar;
use crate::fitting::{difference_fits, product_fits, sum_fits};
use crate::width::{fits_unsigned, low_bits};
use ir_tables::{Flag, Flags};

/// `add`: the sum modulo 2^width; `nuw` and `nsw` give poison where the exact sum does not fit.
#[inline(always)]
pub fn sum(flags: Flags, width: u8, a: u128, b: u128) -> Scalar
    requires width { IsWidth width }
    requires a { a < 2 ^ width }
    requires b { b < 2 ^ width }
    ensures { result ≡ sum_of flags width a b }
{
    if flags.has(Flag::Nuw) && !fits_unsigned(width, a.checked_add(b)) {
        return Scalar::Poison;
    }
    if flags.has(Flag::Nsw) && !sum_fits(width, a, b) {
        return Scalar::Poison;
    }
    Scalar::Int(low_bits(width, a.wrapping_add(b)))
}

/// `sub`: the difference modulo 2^width, with the flags of `add`.
#[inline(always)]
pub fn difference(flags: Flags, width: u8, a: u128, b: u128) -> Scalar
    requires width { IsWidth width }
    requires a { a < 2 ^ width }
    requires b { b < 2 ^ width }
    ensures { result ≡ difference_of flags width a b }
{
    if flags.has(Flag::Nuw) && !fits_unsigned(width, a.checked_sub(b)) {
        return Scalar::Poison;
    }
    if flags.has(Flag::Nsw) && !difference_fits(width, a, b) {
        return Scalar::Poison;
    }
    Scalar::Int(low_bits(width, a.wrapping_sub(b)))
}

/// `mul`: the product modulo 2^width, with the flags of `add`.
#[inline(always)]
pub fn product(flags: Flags, width: u8, a: u128, b: u128) -> Scalar
    requires width { IsWidth width }
    requires a { a < 2 ^ width }
    requires b { b < 2 ^ width }
    ensures { result ≡ product_of flags width a b }
{
    if flags.has(Flag::Nuw) && !fits_unsigned(width, a.checked_mul(b)) {
        return Scalar::Poison;
    }
    if flags.has(Flag::Nsw) && !product_fits(width, a, b) {
        return Scalar::Poison;
    }
    Scalar::Int(low_bits(width, a.wrapping_mul(b)))
}
