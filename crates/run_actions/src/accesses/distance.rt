//! How far indices reach.
ghost use Rattle.std.specs.Prelude.{◌≡◌, ℤ, ◌+ℤ◌, ◌*◌, ◌^◌, ◌≤◌, IfSome, Some};
ghost use Rattle.ir_eval.specs.Value.{IsInteger, IsWidth};
ghost use Rattle.type_table.specs.declared.measure.TheConstants.{SIZE_LIMIT};
ghost use Rattle.run_rules.specs.Displace as rules;
ghost use Rattle.run_actions.specs.Accesses.Near.{IsNear};

use ir_eval::Scalar;
use ir_eval::width::{reduced, signed};

/// How far so many elements of a size reach, in bytes: the index is cut or extended with its sign to 64 bits. None where it is
/// poison (LangRef, "getelementptr Instruction"). The width is in bits, the size in bytes.
#[inline]
pub fn reach(index: Scalar, width: u8, size: u64) -> Option<i128>
    requires width { IsWidth width }
    requires index { IsInteger width index }
    requires size { size ≤ SIZE_LIMIT }
    ensures value { result ≡ rules.reach index width size }
    ensures near { IfSome result (IsNear (2 ^ 63 * SIZE_LIMIT)) }
{
    let Scalar::Int(number) = index else {
        return None;
    };
    let elements = signed(64, reduced(64, signed(width, number)));
    Some(elements * i128::from(size))
}

/// The sum of two distances, where both are known. They are near enough for it.
#[inline]
pub fn sum(first: Option<i128>, second: Option<i128>) -> Option<i128>
    requires first { IfSome first (IsNear (2 ^ 125)) }
    requires second { IfSome second (IsNear (2 ^ 125)) }
    ensures { result ≡ rules.sum_of first second }
{
    match (first, second) {
        (Some(first), Some(second)) => Some(first + second),
        _ => None,
    }
}
