//! Shifts of two numbers as one of twice the width.
ghost use Rattle.std.specs.Prelude.{◌≡◌, ◌^◌, ◌<◌, ◌*◌, ◌+◌, ◌-◌, ◌/◌, ◌%◌};
ghost use Rattle.ir_eval.specs.Value.{IsWidth};
ghost use Rattle.ir_eval.specs.declared.value.Scalar.TheVariants.{Int};
ghost use Rattle.ir_intrinsics.specs.Results.{shifted_up_of, shifted_down_of};

use ir_eval::Scalar;
use ir_eval::width::low_bits;

/// `fshl`: the high half, shifted up by the amount modulo the width.
pub fn shifted_up(width: u8, high: u128, low: u128, amount: u128) -> Scalar
    requires width { IsWidth width }
    requires high { high < 2 ^ width }
    requires low { low < 2 ^ width }
    ensures { result ≡ Int (shifted_up_of width high low (amount % width)) }
{
    let up = (amount % u128::from(width)) as u8;
    if up == 0 {
        return Scalar::Int(high);
    }
    Scalar::Int(joined(width, high, low, up))
}

/// `fshr`: the low half, shifted down by the amount modulo the width.
pub fn shifted_down(width: u8, high: u128, low: u128, amount: u128) -> Scalar
    requires width { IsWidth width }
    requires high { high < 2 ^ width }
    requires low { low < 2 ^ width }
    ensures { result ≡ Int (shifted_down_of width high low (amount % width)) }
{
    let down = (amount % u128::from(width)) as u8;
    if down == 0 {
        return Scalar::Int(low);
    }
    Scalar::Int(joined(width, high, low, width - down))
}

// The low bits of the high half above the high bits of the low one, of which there are `up`.
fn joined(width: u8, high: u128, low: u128, up: u8) -> u128
    requires width { IsWidth width }
    requires some { 0 < up }
    requires few { up < width }
    requires low { low < 2 ^ width }
    ensures { result ≡ (high % 2 ^ (width - up)) * 2 ^ up + low / 2 ^ (width - up) }
{
    low_bits(width - up, high) << up | low >> (width - up)
}
