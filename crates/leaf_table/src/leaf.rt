//! Leaves of values as a line has them, and as an answer has them.
ghost use Rattle.std.specs.Prelude.{IsTrue};
ghost use Rattle.ir_eval.specs.Value.{IsInteger};

use ir_eval::{Pointer, Scalar};
use std::alloc::AllocError;

/// The leaf that the word is: a number, `p` or `poison`, or a pointer. Address 7 is `in:2:7` or
/// `2:7` in block 2, and `at:7` or `-:7` in none.
pub fn leaf_of(word: &str) -> Option<Scalar> {
    if word == "p" || word == "poison" {
        return Some(Scalar::Poison);
    }
    let place = word.strip_prefix("in:").unwrap_or(word);
    match place.split_once(':') {
        Some((block, address)) => pointer_of(block, address),
        None => Some(Scalar::Int(word.parse::<u128>().ok()?)),
    }
}

fn pointer_of(block: &str, address: &str) -> Option<Scalar> {
    let address = address.parse::<u64>().ok()?;
    let block = match block {
        "at" | "-" => None,
        _ => Some(block.parse::<u64>().ok()?),
    };
    Some(Scalar::Ptr(Pointer { block, address }))
}

/// Whether the leaf is poison or an integer of this width in bits.
pub fn is_integer(width: u8, leaf: Scalar) -> bool
    ensures { IsTrue result → IsInteger width leaf }
{
    match leaf {
        Scalar::Int(number) => width < 128 && number < 1 << width || width == 128,
        Scalar::Ptr(_) => false,
        Scalar::Poison => true,
    }
}

/// The leaf of a place in a list of all numbers below a count, with poison at its end.
pub fn listed(count: u128, place: u128) -> Scalar {
    if place < count {
        Scalar::Int(place)
    } else {
        Scalar::Poison
    }
}

/// Adds a leaf: a number in hexadecimal, `p` for poison, or a pointer.
pub fn push_leaf(text: &mut String, leaf: Scalar) -> Result<(), AllocError> {
    match leaf {
        Scalar::Int(number) => write!(text, "{number:x}"),
        Scalar::Ptr(pointer) => push_pointer(text, pointer),
        Scalar::Poison => text.push_str("p"),
    }
}

fn push_pointer(text: &mut String, pointer: Pointer) -> Result<(), AllocError> {
    let address = pointer.address;
    match pointer.block {
        Some(block) => write!(text, "in:{block}:{address}"),
        None => write!(text, "at:{address}"),
    }
}
