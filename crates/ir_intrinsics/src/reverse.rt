//! Bits and bytes in the other order.
ghost use Rattle.std.specs.Prelude.{◌≡◌, ◌^◌, ◌<◌, ◌≤◌, ◌/◌, ◌%◌};
ghost use Rattle.ir_eval.specs.Value.{IsWidth};
ghost use Rattle.ir_eval.specs.declared.value.Scalar.TheVariants.{Int};
ghost use Rattle.ir_intrinsics.specs.Results.{reversed_digits};

use ir_eval::Scalar;

/// `bitreverse`: the lowest bit becomes the highest, and so on.
#[tactic(auto, using(crate::proofs::Digits::bits_fit))]
pub fn reversed_bits(width: u8, number: u128) -> Scalar
    requires { IsWidth width }
    ensures { result ≡ Int (reversed_digits 2 width number) }
{
    Scalar::Int(reversed_digits(2, width, number))
}

/// `bswap`: the lowest byte becomes the highest, and so on.
#[tactic(auto, using(crate::proofs::Digits::bytes_fit))]
pub fn reversed_bytes(width: u8, number: u128) -> Scalar
    requires { IsWidth width }
    ensures { result ≡ Int (reversed_digits 256 (width / 8) number) }
{
    Scalar::Int(reversed_digits(256, width / 8, number))
}

// So many lowest digits in the base, of which the lowest becomes the highest.
fn reversed_digits(base: u128, count: u8, number: u128) -> u128
    requires base { 0 < base }
    requires fits { base ^ count ≤ 2 ^ 128 }
    ensures { result ≡ reversed_digits base count number }
{
    let mut rest = number;
    let mut reversed = 0;
    let mut left = count;
    'digits: while left > 0 {
        reversed = reversed * base + rest % base;
        rest /= base;
        left -= 1;
    }
    reversed
}
