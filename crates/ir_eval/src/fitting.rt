//! Whether the exact sum, difference or product of two numbers with sign fits a width.
ghost use Rattle.std.specs.Prelude.{◌≡◌, ◌^◌, ◌<◌, ◌+ℤ◌, ◌-ℤ◌, ◌*ℤ◌};
ghost use Rattle.ir_eval.specs.Value.{IsWidth, signed, fits_signed};

use crate::short;
use crate::width::{fits_signed, signed};

/// Whether the sum fits.
#[inline(always)]
pub fn sum_fits(width: u8, a: u128, b: u128) -> bool
    requires width { IsWidth width }
    requires a { a < 2 ^ width }
    requires b { b < 2 ^ width }
    ensures { result ≡ fits_signed width (signed width a +ℤ signed width b) }
{
    if width <= 64 {
        return short::sum_fits(width, a, b);
    }
    let left = signed(width, a);
    let right = signed(width, b);
    fits_signed(width, left.checked_add(right))
}

/// Whether the difference fits.
#[inline(always)]
pub fn difference_fits(width: u8, a: u128, b: u128) -> bool
    requires width { IsWidth width }
    requires a { a < 2 ^ width }
    requires b { b < 2 ^ width }
    ensures { result ≡ fits_signed width (signed width a -ℤ signed width b) }
{
    if width <= 64 {
        return short::difference_fits(width, a, b);
    }
    let left = signed(width, a);
    let right = signed(width, b);
    fits_signed(width, left.checked_sub(right))
}

/// Whether the product fits.
#[inline(always)]
pub fn product_fits(width: u8, a: u128, b: u128) -> bool
    requires width { IsWidth width }
    requires a { a < 2 ^ width }
    requires b { b < 2 ^ width }
    ensures { result ≡ fits_signed width (signed width a *ℤ signed width b) }
{
    if width <= 64 {
        return short::product_fits(width, a, b);
    }
    let left = signed(width, a);
    let right = signed(width, b);
    fits_signed(width, left.checked_mul(right))
}
