//! Comparisons.
ghost use Rattle.std.specs.Prelude.{◌≡◌, ◌^◌, ◌<◌, int_le, int_lt};
ghost use Rattle.ir_eval.specs.Value.{IsWidth, IsInteger, signed};
ghost use Rattle.ir_eval.specs.Compare.{holds, truth, number_of, comparison_of, compare_of, AreComparable};

use crate::width::{has_sign, signed};
use crate::{Scalar, short};
use ir_tables::Predicate;

/// Whether two integers or two pointers compare so, as an integer of width 1, or poison. The width is
/// from 1 to 128, and that of a pointer is written 64. `samesign` gives poison for unlike signs.
#[inline(always)]
pub fn compare(predicate: Predicate, samesign: bool, width: u8, a: Scalar, b: Scalar) -> Scalar
    requires width { IsWidth width }
    requires operands { AreComparable width a b }
    ensures value { result ≡ compare_of predicate samesign width a b }
    ensures kind { IsInteger 1 result }
{
    match (number_of(a), number_of(b)) {
        (Some(a), Some(b)) => comparison(predicate, samesign, width, a, b),
        _ => Scalar::Poison,
    }
}

fn number_of(operand: Scalar) -> Option<u128>
    ensures { result ≡ number_of operand }
{
    match operand {
        Scalar::Int(number) => Some(number),
        Scalar::Ptr(pointer) => Some(u128::from(pointer.address)),
        Scalar::Poison => None,
    }
}

fn comparison(predicate: Predicate, samesign: bool, width: u8, a: u128, b: u128) -> Scalar
    requires width { IsWidth width }
    requires a { a < 2 ^ width }
    requires b { b < 2 ^ width }
    ensures { result ≡ comparison_of predicate samesign width a b }
{
    if samesign && has_sign(width, a) != has_sign(width, b) {
        return Scalar::Poison;
    }
    Scalar::Int(u128::from(holds(predicate, width, a, b)))
}

/// Whether the first number is below the second, both with their signs.
#[inline]
fn is_below(width: u8, a: u128, b: u128) -> bool
    requires width { IsWidth width }
    requires a { a < 2 ^ width }
    requires b { b < 2 ^ width }
    ensures { result ≡ int_lt (signed width a) (signed width b) }
{
    if width <= 64 {
        return short::signed(width, a) < short::signed(width, b);
    }
    signed(width, a) < signed(width, b)
}

/// Whether the first number is at most the second, both with their signs.
#[inline]
fn is_at_most(width: u8, a: u128, b: u128) -> bool
    requires width { IsWidth width }
    requires a { a < 2 ^ width }
    requires b { b < 2 ^ width }
    ensures { result ≡ int_le (signed width a) (signed width b) }
{
    if width <= 64 {
        return short::signed(width, a) <= short::signed(width, b);
    }
    signed(width, a) <= signed(width, b)
}

fn holds(predicate: Predicate, width: u8, a: u128, b: u128) -> bool
    requires width { IsWidth width }
    requires a { a < 2 ^ width }
    requires b { b < 2 ^ width }
    ensures { result ≡ holds predicate width a b }
{
    match predicate {
        Predicate::Eq => a == b,
        Predicate::Ne => a != b,
        Predicate::Ugt => a > b,
        Predicate::Uge => a >= b,
        Predicate::Ult => a < b,
        Predicate::Ule => a <= b,
        Predicate::Sgt => is_below(width, b, a),
        Predicate::Sge => is_at_most(width, b, a),
        Predicate::Slt => is_below(width, a, b),
        Predicate::Sle => is_at_most(width, a, b),
    }
}
