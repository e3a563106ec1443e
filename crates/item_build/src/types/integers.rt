//! Integers, as a text writes them, at their places.
ghost use Rattle.std.specs.Prelude.{◌≡◌, ◌<◌, ◌≤◌, ◌^◌};
ghost use Rattle.module_arena.specs.declared.arena.TheConstants.{INDEX_LIMIT};
ghost use Rattle.name_rules.specs.Written.{natural};
ghost use Rattle.item_build.specs.Types.Typed.{reduced_to};

use ir_tables::WIDEST;
use ir_terminals::{Integer, Number};

/// What an integer that is not negative stands for, in 64 bits.
pub(crate) fn length_of(written: &Integer) -> u64
    requires { natural written.now < 2 ^ 64 }
    ensures { result ≡ natural written.now }
{
    if written.negative {
        return 0;
    }
    written.magnitude.to_u64().unwrap()
}

/// What an index or an alignment stands for, which has at most 32 bits.
pub fn index_of(written: &Integer) -> u32
    requires { natural written.now < INDEX_LIMIT }
    ensures { result ≡ natural written.now }
{
    length_of(written) as u32
}

/// The integer of that sign and magnitude, modulo 2^bits.
pub(crate) fn reduced(bits: u8, negative: bool, number: &Number) -> u128
    requires bits { bits ≤ WIDEST }
    requires magnitude { number.now < 2 ^ WIDEST }
    ensures { result ≡ reduced_to bits negative number.now }
{
    let magnitude = number.to_u128().unwrap();
    if bits == WIDEST {
        return if negative && magnitude > 0 {
            u128::MAX - magnitude + 1
        } else {
            magnitude
        };
    }
    let modulus = 1u128 << bits;
    let rest = magnitude % modulus;
    if negative && rest > 0 {
        modulus - rest
    } else {
        rest
    }
}
