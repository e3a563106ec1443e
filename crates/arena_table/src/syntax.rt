//! What texts are read as.
//!
//! Texts stand one after another, with a line `====` between two. The answer to a text is how many
//! items of each kind it has, with its blocks and instructions, or why it is refused. Of a text
//! that begins with a line `==== parts` it is the parts of its items.
mod counts;
mod parts;

use crate::word::shown;
use counts::push_counts;
use ir_base::Place;
use ir_syntax::{LARGEST, SyntaxFault, read_items};
use parts::push_parts;
use std::alloc::{AllocError, Global};

/// What is asked of a text.
#[derive(Clone, Copy)]
pub enum Asked {
    /// How many items of each kind it has.
    Counts,
    /// The parts of its items.
    Parts,
}

/// Adds the answer to a text.
pub fn push_answer(
    text: &mut String,
    alloc: Global,
    asked: Asked,
    given: &[u8],
) -> Result<(), AllocError> {
    if given.len() > LARGEST {
        return text.push_str("too large");
    }
    match (read_items(alloc, given), asked) {
        (Ok(items), Asked::Counts) => push_counts(text, items.as_slice()),
        (Ok(items), Asked::Parts) => push_parts(text, items.as_slice()),
        (Err(fault), _) => push_fault(text, &fault),
    }
}

// Adds why a text is refused.
fn push_fault(text: &mut String, fault: &SyntaxFault) -> Result<(), AllocError> {
    match fault {
        SyntaxFault::BadByte(place) => push_place(text, *place, "bad byte"),
        SyntaxFault::NoItemHere(place) => push_place(text, *place, "no item here"),
        SyntaxFault::LeftOutWord { place, word } => {
            push_place(text, *place, "left out: ")?;
            text.push_str(shown(word.bytes()))
        }
        SyntaxFault::TooDeep(place) => push_place(text, *place, "too deep"),
        SyntaxFault::Memory => text.push_str("out of memory"),
    }
}

fn push_place(text: &mut String, place: Place, what: &str) -> Result<(), AllocError> {
    write!(text, "{}:{}: {what}", place.line, place.column)
}
