//! Quotients and remainders.
ghost use Rattle.std.specs.Prelude.{◌≡◌, ◌^◌, ◌<◌};
ghost use Rattle.ir_eval.specs.Value.{IsWidth};
ghost use Rattle.ir_eval.specs.Division.{quotient_of, remainder_of, signed_quotient_of, signed_remainder_of};

use crate::Scalar;
use crate::width::{fits_signed, reduced, signed};
use ir_tables::{Flag, Flags, UndefinedKind};

/// `udiv`: rounded down; `exact` gives poison where something remains.
pub fn quotient(flags: Flags, a: u128, b: u128) -> Scalar
    requires { 0 < b }
    ensures { result ≡ quotient_of flags a b }
{
    if flags.has(Flag::Exact) && a % b != 0 {
        return Scalar::Poison;
    }
    Scalar::Int(a / b)
}

/// `urem`.
pub fn remainder(a: u128, b: u128) -> Scalar
    requires { 0 < b }
    ensures { result ≡ remainder_of a b }
{
    Scalar::Int(a % b)
}

/// `sdiv`: rounded toward zero; `exact` as in `udiv`. Refuses the quotient of the least value by -1.
pub fn signed_quotient(flags: Flags, width: u8, a: u128, b: u128) -> Result<Scalar, UndefinedKind>
    requires width { IsWidth width }
    requires a { a < 2 ^ width }
    requires b { b < 2 ^ width }
    requires divisor { 0 < b }
    ensures { result ≡ signed_quotient_of flags width a b }
{
    let dividend = signed(width, a);
    let divisor = signed(width, b);
    let exact = dividend.checked_div(divisor);
    if !fits_signed(width, exact) {
        return Err(UndefinedKind::DivisionOverflow);
    }
    if flags.has(Flag::Exact) && dividend % divisor != 0 {
        return Ok(Scalar::Poison);
    }
    Ok(Scalar::Int(reduced(width, dividend / divisor)))
}

/// `srem`: with the sign of the dividend. Refuses where the quotient is refused.
pub fn signed_remainder(width: u8, a: u128, b: u128) -> Result<Scalar, UndefinedKind>
    requires width { IsWidth width }
    requires a { a < 2 ^ width }
    requires b { b < 2 ^ width }
    requires divisor { 0 < b }
    ensures { result ≡ signed_remainder_of width a b }
{
    let dividend = signed(width, a);
    let divisor = signed(width, b);
    if !fits_signed(width, dividend.checked_div(divisor)) {
        return Err(UndefinedKind::DivisionOverflow);
    }
    Ok(Scalar::Int(reduced(width, dividend % divisor)))
}
