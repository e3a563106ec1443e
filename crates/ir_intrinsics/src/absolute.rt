//! The absolute value, the least and the greatest.
ghost use Rattle.std.specs.Prelude.{◌≡◌, ◌^◌, ◌<◌};
ghost use Rattle.ir_eval.specs.Value.{IsWidth};
ghost use Rattle.ir_intrinsics.specs.Results.{absolute_of, least_of, greatest_of};

use crate::asked::is_asked_for;
use ir_eval::Scalar;
use ir_eval::width::{greatest, has_sign, signed};

/// `abs`: the number without its sign. The least number gives itself, or poison where `asked` is 1.
pub fn absolute(width: u8, number: u128, asked: u128) -> Scalar
    requires width { IsWidth width }
    requires number { number < 2 ^ width }
    ensures { result ≡ absolute_of width number asked }
{
    if !has_sign(width, number) {
        return Scalar::Int(number);
    }
    let negated = greatest(width) - number + 1;
    if is_asked_for(negated == number, asked) {
        return Scalar::Poison;
    }
    Scalar::Int(negated)
}

/// `smin`: the least of two by sign.
pub fn least_of(width: u8, a: u128, b: u128) -> Scalar
    requires width { IsWidth width }
    requires a { a < 2 ^ width }
    requires b { b < 2 ^ width }
    ensures { result ≡ least_of width a b }
{
    Scalar::Int(if signed(width, a) <= signed(width, b) {
        a
    } else {
        b
    })
}

/// `smax`: the greatest of two by sign.
pub fn greatest_of(width: u8, a: u128, b: u128) -> Scalar
    requires width { IsWidth width }
    requires a { a < 2 ^ width }
    requires b { b < 2 ^ width }
    ensures { result ≡ greatest_of width a b }
{
    Scalar::Int(if signed(width, a) <= signed(width, b) {
        b
    } else {
        a
    })
}
