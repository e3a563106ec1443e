//! Shifts.
ghost use Rattle.std.specs.Prelude.{◌≡◌, ◌^◌, ◌<◌};
ghost use Rattle.ir_eval.specs.Value.{IsWidth};
ghost use Rattle.ir_eval.specs.Shift.{shifted_left_of, shifted_right_of, signed_shifted_right_of};

use crate::Scalar;
use crate::width::{fits_signed, greatest, low_bits, reduced, signed};
use ir_tables::{Flag, Flags};

/// `shl`: the product with 2^amount modulo 2^width, with the flags of `add`, or poison where the amount is
/// at least the width.
pub fn shifted_left(flags: Flags, width: u8, number: u128, amount: u128) -> Scalar
    requires width { IsWidth width }
    requires number { number < 2 ^ width }
    ensures { result ≡ shifted_left_of flags width number amount }
{
    if amount >= width as u128 {
        return Scalar::Poison;
    }
    let room = width - amount as u8;
    if flags.has(Flag::Nuw) && number > greatest(room) {
        return Scalar::Poison;
    }
    if flags.has(Flag::Nsw) && !fits_signed(room, Some(signed(width, number))) {
        return Scalar::Poison;
    }
    Scalar::Int(low_bits(width, number << amount))
}

/// `lshr`: zeros come in from above; `exact` gives poison where a set bit goes out.
pub fn shifted_right(flags: Flags, width: u8, number: u128, amount: u128) -> Scalar
    requires { IsWidth width }
    ensures { result ≡ shifted_right_of flags width number amount }
{
    if amount >= width as u128 {
        return Scalar::Poison;
    }
    if flags.has(Flag::Exact) && number % (1 << amount) != 0 {
        return Scalar::Poison;
    }
    Scalar::Int(number >> amount)
}

/// `ashr`: copies of the sign bit come in from above; `exact` as in `lshr`.
pub fn signed_shifted_right(flags: Flags, width: u8, number: u128, amount: u128) -> Scalar
    requires width { IsWidth width }
    requires number { number < 2 ^ width }
    ensures { result ≡ signed_shifted_right_of flags width number amount }
{
    if amount >= width as u128 {
        return Scalar::Poison;
    }
    if flags.has(Flag::Exact) && number % (1 << amount) != 0 {
        return Scalar::Poison;
    }
    Scalar::Int(reduced(width, signed(width, number) >> amount))
}
