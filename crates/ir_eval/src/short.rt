//! Integers of a width of up to 64, in words of 64 bits: what `width` gives, in fewer steps.
ghost use Rattle.std.specs.Prelude.{◌≡◌, ◌-◌, ◌^◌, ◌<◌, ◌≤◌, ◌+ℤ◌, ◌-ℤ◌, ◌*ℤ◌, false};
ghost use Rattle.std.specs.Option.{option_map_or};
ghost use Rattle.ir_eval.specs.Value.{IsWidth, signed, fits_signed};

/// The greatest number of this width.
#[inline]
pub fn greatest(width: u8) -> u64
    requires width { IsWidth width }
    requires short { width ≤ 64 }
    ensures { result ≡ 2 ^ width - 1 }
{
    u64::MAX >> (64 - width)
}

/// The number read with its sign.
#[inline]
pub fn signed(width: u8, number: u128) -> i64
    requires width { IsWidth width }
    requires short { width ≤ 64 }
    requires number { number < 2 ^ width }
    ensures { result ≡ signed width number }
{
    let greatest = greatest(width);
    let word = number as u64;
    if word <= greatest / 2 {
        word as i64
    } else {
        -1 - (greatest - word) as i64
    }
}

/// Whether an exact result with sign is there, and the width has it.
#[inline]
fn fits_signed(width: u8, exact: Option<i64>) -> bool
    requires width { IsWidth width }
    requires short { width ≤ 64 }
    ensures { result ≡ option_map_or (fits_signed width) exact false }
{
    let most = (greatest(width) / 2) as i64;
    match exact {
        Some(number) => -1 - most <= number && number <= most,
        None => false,
    }
}

/// Whether the exact sum of two numbers with sign fits.
#[inline]
pub fn sum_fits(width: u8, a: u128, b: u128) -> bool
    requires width { IsWidth width }
    requires short { width ≤ 64 }
    requires a { a < 2 ^ width }
    requires b { b < 2 ^ width }
    ensures { result ≡ fits_signed width (signed width a +ℤ signed width b) }
{
    let left = signed(width, a);
    let right = signed(width, b);
    fits_signed(width, left.checked_add(right))
}

/// Whether the exact difference of two numbers with sign fits.
#[inline]
pub fn difference_fits(width: u8, a: u128, b: u128) -> bool
    requires width { IsWidth width }
    requires short { width ≤ 64 }
    requires a { a < 2 ^ width }
    requires b { b < 2 ^ width }
    ensures { result ≡ fits_signed width (signed width a -ℤ signed width b) }
{
    let left = signed(width, a);
    let right = signed(width, b);
    fits_signed(width, left.checked_sub(right))
}

/// Whether the exact product of two numbers with sign fits.
#[inline]
pub fn product_fits(width: u8, a: u128, b: u128) -> bool
    requires width { IsWidth width }
    requires short { width ≤ 64 }
    requires a { a < 2 ^ width }
    requires b { b < 2 ^ width }
    ensures { result ≡ fits_signed width (signed width a *ℤ signed width b) }
{
    let left = signed(width, a);
    let right = signed(width, b);
    fits_signed(width, left.checked_mul(right))
}
