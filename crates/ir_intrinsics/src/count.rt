//! Counts of bits.
ghost use Rattle.std.specs.Prelude.{◌≡◌, ◌^◌, ◌<◌, count_ones};
ghost use Rattle.ir_eval.specs.Value.{IsWidth};
ghost use Rattle.ir_eval.specs.declared.value.Scalar.TheVariants.{Int};
ghost use Rattle.ir_intrinsics.specs.Results.{leading_zeros_of, trailing_zeros_of};

use crate::asked::is_asked_for;
use ir_eval::Scalar;
use ir_tables::WIDEST;

/// `ctpop`: how many bits are set.
pub fn set_bits(number: u128) -> Scalar
    ensures { result ≡ Int (count_ones number) }
{
    Scalar::Int(u128::from(number.count_ones()))
}

/// `ctlz`: how many zeros stand above the highest set bit. Where none is set, all, or poison where `asked` is 1.
pub fn leading_zeros(width: u8, number: u128, asked: u128) -> Scalar
    requires width { IsWidth width }
    requires number { number < 2 ^ width }
    ensures { result ≡ leading_zeros_of width number asked }
{
    if is_asked_for(number == 0, asked) {
        return Scalar::Poison;
    }
    Scalar::Int(u128::from(number.leading_zeros()) - u128::from(WIDEST - width))
}

/// `cttz`: how many zeros stand below the lowest set bit. Where none is set, all, or poison where `asked` is 1.
pub fn trailing_zeros(width: u8, number: u128, asked: u128) -> Scalar
    requires width { IsWidth width }
    requires number { number < 2 ^ width }
    ensures { result ≡ trailing_zeros_of width number asked }
{
    if is_asked_for(number == 0, asked) {
        return Scalar::Poison;
    }
    Scalar::Int(u128::from(number.trailing_zeros()).min(u128::from(width)))
}
