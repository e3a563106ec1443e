//! Integers of a width, in words of 128 bits.
ghost use Rattle.std.specs.Prelude.{◌≡◌, ◌-◌, ◌%◌, ◌^◌, ◌<◌, false, nat_lt, pos};
ghost use Rattle.std.specs.Option.{option_map_or};
ghost use Rattle.ir_eval.specs.Value.{IsWidth, signed, fits_signed, reduced, has_sign};

use crate::short;
use ir_tables::WIDEST;

/// The greatest number of this width.
#[inline]
pub fn greatest(width: u8) -> u128
    requires { IsWidth width }
    ensures { result ≡ 2 ^ width - 1 }
{
    if width <= 64 {
        return short::greatest(width) as u128;
    }
    u128::MAX >> (WIDEST - width)
}

/// The low bits of a word.
#[inline]
pub fn low_bits(width: u8, word: u128) -> u128
    requires { IsWidth width }
    ensures { result ≡ word % 2 ^ width }
{
    word & greatest(width)
}

/// The number read with its sign.
#[inline]
pub fn signed(width: u8, number: u128) -> i128
    requires width { IsWidth width }
    requires number { number < 2 ^ width }
    ensures { result ≡ signed width number }
{
    if width <= 64 {
        return short::signed(width, number) as i128;
    }
    let greatest = greatest(width);
    if number <= greatest / 2 {
        number as i128
    } else {
        -1 - (greatest - number) as i128
    }
}

/// Whether the sign bit is set.
#[inline]
pub fn has_sign(width: u8, number: u128) -> bool
    requires { IsWidth width }
    ensures { result ≡ has_sign width number }
{
    number > greatest(width) / 2
}

/// The low bits of a number with its sign, as two's complement.
#[inline]
pub fn reduced(width: u8, number: i128) -> u128
    requires { IsWidth width }
    ensures { result ≡ reduced width number }
{
    low_bits(width, number.cast_unsigned())
}

/// Whether an exact result is there, and is at most the greatest number of the width.
#[inline]
pub fn fits_unsigned(width: u8, exact: Option<u128>) -> bool
    requires { IsWidth width }
    ensures { result ≡ option_map_or (λ number. nat_lt number (2 ^ width)) exact false }
{
    match exact {
        Some(number) => number <= greatest(width),
        None => false,
    }
}

/// Whether an exact result with sign is there, and the width has it.
#[inline]
pub fn fits_signed(width: u8, exact: Option<i128>) -> bool
    requires { IsWidth width }
    ensures { result ≡ option_map_or (fits_signed width) exact false }
{
    let most = (greatest(width) / 2) as i128;
    match exact {
        Some(number) => -1 - most <= number && number <= most,
        None => false,
    }
}
