//! Sums and differences that stop at the ends of the range.
ghost use Rattle.std.specs.Prelude.{◌≡◌, ◌^◌, ◌<◌, ◌-◌, ◌+◌, min, ◌+ℤ◌, ◌-ℤ◌};
ghost use Rattle.std.specs.Int.{saturate_to_bits};
ghost use Rattle.ir_eval.specs.Value.{IsWidth, signed, reduced};
ghost use Rattle.ir_eval.specs.declared.value.Scalar.TheVariants.{Int};
ghost use Rattle.ir_intrinsics.specs.Results.{signed_saturated};

use ir_eval::Scalar;
use ir_eval::width::{greatest, reduced, signed};

/// `uadd.sat`
pub fn saturated_sum(width: u8, a: u128, b: u128) -> Scalar
    requires width { IsWidth width }
    ensures { result ≡ Int (min (a + b) (2 ^ width - 1)) }
{
    Scalar::Int(a.saturating_add(b).min(greatest(width)))
}

/// `usub.sat`
pub fn saturated_difference(a: u128, b: u128) -> Scalar
    ensures { result ≡ Int (a - b) }
{
    Scalar::Int(a.saturating_sub(b))
}

/// `sadd.sat`
pub fn signed_saturated_sum(width: u8, a: u128, b: u128) -> Scalar
    requires width { IsWidth width }
    requires a { a < 2 ^ width }
    requires b { b < 2 ^ width }
    ensures { result ≡ signed_saturated width (signed width a +ℤ signed width b) }
{
    Scalar::Int(nearest(width, signed(width, a).saturating_add(signed(width, b))))
}

/// `ssub.sat`
pub fn signed_saturated_difference(width: u8, a: u128, b: u128) -> Scalar
    requires width { IsWidth width }
    requires a { a < 2 ^ width }
    requires b { b < 2 ^ width }
    ensures { result ≡ signed_saturated width (signed width a -ℤ signed width b) }
{
    Scalar::Int(nearest(width, signed(width, a).saturating_sub(signed(width, b))))
}

// The nearest number of the width, with sign, as its low bits.
fn nearest(width: u8, exact: i128) -> u128
    requires { IsWidth width }
    ensures { result ≡ reduced width (saturate_to_bits (width - 1) exact) }
{
    let most = (greatest(width) / 2) as i128;
    if exact > most {
        reduced(width, most)
    } else if exact < -1 - most {
        reduced(width, -1 - most)
    } else {
        reduced(width, exact)
    }
}
