//! What an intrinsic on integers gives.
//!
//! A line `all NAME` asks for the results on all operands of a width of at most 4, with poison
//! last and the first operand changing slowest; `row NAME OPERAND..` has its operands. The answer
//! is in hexadecimal, with `p` for poison, and two leaves are `first,second`.
ghost use Rattle.std.specs.Prelude.{◌≡◌, IsTrue, IfSome};
ghost use Rattle.ir_tables.specs.IntrinsicName.{has_width};
ghost use Rattle.ir_eval.specs.Value.{IsWidth};
ghost use Rattle.ir_intrinsics.specs.Operands.{IsOperand, second_width, third_width};

use crate::leaf::{is_integer, leaf_of, listed, push_leaf};
use crate::word::word;
use ir_eval::Scalar;
use ir_intrinsics::{Outcome, apply};
use ir_tables::{Intrinsic, WIDEST};
use std::alloc::AllocError;

/// The greatest width of which all operands are asked for.
const WIDEST_IN_FULL: u8 = 4;

/// Adds the answer to the line.
pub fn push_answer(text: &mut String, line: &str) -> Result<(), AllocError> {
    write!(text, "{line}:")?;
    let Some((which, width)) = Intrinsic::of_name(word(line, 1).as_bytes()) else {
        return text.push_str(" none");
    };
    if word(line, 0) != "all" {
        let (a, b, c) = (word(line, 2), word(line, 3), word(line, 4));
        let outcome = applied(which, width, leaf_of(a), leaf_of(b), leaf_of(c));
        push_outcome(text, outcome)
    } else if width <= WIDEST_IN_FULL {
        push_all(text, which, width)
    } else {
        text.push_str(" too wide")
    }
}

fn push_all(text: &mut String, which: Intrinsic, width: u8) -> Result<(), AllocError> {
    let (second, third) = (second_width(which, width), third_width(which, width));
    for a in 0..=last_place(Some(width)) {
        for b in 0..=last_place(second) {
            for c in 0..=last_place(third) {
                let operands = (place(Some(width), a), place(second, b), place(third, c));
                let outcome = applied(which, width, operands.0, operands.1, operands.2);
                push_outcome(text, outcome)?;
            }
        }
    }
    Ok(())
}

// The last place in the list of all operands of a small width: that of poison.
fn last_place(width: Option<u8>) -> u128 {
    match width {
        Some(width) => 1 << width.min(WIDEST_IN_FULL),
        None => 0,
    }
}

// The operand at that place.
fn place(width: Option<u8>, place: u128) -> Option<Scalar> {
    match width {
        Some(_) => Some(listed(last_place(width), place)),
        None => None,
    }
}

fn second_width(which: Intrinsic, width: u8) -> Option<u8>
    ensures { result ≡ second_width which width }
{
    match which {
        Intrinsic::Ctpop | Intrinsic::Bswap | Intrinsic::Bitreverse => None,
        Intrinsic::Ctlz | Intrinsic::Cttz | Intrinsic::Abs => Some(1),
        _ => Some(width),
    }
}

fn third_width(which: Intrinsic, width: u8) -> Option<u8>
    ensures { result ≡ third_width which width }
{
    match which {
        Intrinsic::Fshl | Intrinsic::Fshr => Some(width),
        _ => None,
    }
}

// What the intrinsic gives, where it has the width and takes these operands.
fn applied(
    which: Intrinsic,
    width: u8,
    a: Option<Scalar>,
    b: Option<Scalar>,
    c: Option<Scalar>,
) -> Option<Outcome> {
    if !is_width(width) || !has_width(which, width) {
        return None;
    }
    let a = operand(Some(width), a)?;
    let b = operand(second_width(which, width), b)?;
    let c = operand(third_width(which, width), c)?;
    Some(apply(which, width, a, b, c))
}

fn is_width(width: u8) -> bool
    ensures { IsTrue result → IsWidth width }
{
    1 <= width && width <= WIDEST
}

fn has_width(which: Intrinsic, width: u8) -> bool
    ensures { result ≡ has_width which width }
{
    match which {
        Intrinsic::Bswap => width % 16 == 0,
        _ => true,
    }
}

// The operand of that width, and 0 where the intrinsic has none. None where the line has not what
// the intrinsic takes.
fn operand(width: Option<u8>, given: Option<Scalar>) -> Option<Scalar>
    ensures { IfSome result (IsOperand width) }
{
    match (width, given) {
        (Some(width), Some(leaf)) if is_integer(width, leaf) => Some(leaf),
        (None, None) => Some(Scalar::Int(0)),
        _ => None,
    }
}

fn push_outcome(text: &mut String, outcome: Option<Outcome>) -> Result<(), AllocError> {
    let Some(outcome) = outcome else {
        return text.push_str(" none");
    };
    text.push_str(" ")?;
    push_leaf(text, outcome.first)?;
    match outcome.second {
        Some(second) => {
            text.push_str(",")?;
            push_leaf(text, second)
        }
        None => Ok(()),
    }
}
