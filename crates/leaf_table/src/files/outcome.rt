//! What a call gives, and the arguments of a call.
use crate::word::number;
use ir_base::{Failed, FileFault, NumberList, ReadFault, Text};
use std::alloc::{AllocError, Global};
use std::io;

/// What a call gives.
#[derive(Drop)]
pub enum Outcome {
    /// Bytes.
    Bytes(Text),
    /// How many bytes were moved.
    Count(usize),
    /// A word: that it was done, or why it was not.
    Word(&'static str),
}

impl From<AllocError> for Outcome {
    fn from(_failed: AllocError) -> Outcome {
        Outcome::Word("out of memory")
    }
}

impl From<io::Error> for Outcome {
    fn from(_fault: io::Error) -> Outcome {
        Outcome::Word("no such file")
    }
}

impl From<Failed> for Outcome {
    fn from(_failed: Failed) -> Outcome {
        Outcome::Word("failed")
    }
}

impl From<FileFault> for Outcome {
    fn from(fault: FileFault) -> Outcome {
        match fault {
            FileFault::Failed => Outcome::Word("failed"),
            FileFault::TooLarge => Outcome::Word("too large"),
            FileFault::Memory => Outcome::Word("out of memory"),
        }
    }
}

impl From<ReadFault> for Outcome {
    fn from(fault: ReadFault) -> Outcome {
        match fault {
            ReadFault::CannotRead => Outcome::Word("cannot read"),
            ReadFault::Memory => Outcome::Word("out of memory"),
        }
    }
}

/// Adds what a call gives: bytes between bars, a count, or a word.
pub fn push_outcome(
    text: &mut String,
    outcome: Result<Outcome, Outcome>,
) -> Result<(), AllocError> {
    let (Ok(outcome) | Err(outcome)) = outcome;
    match outcome {
        Outcome::Bytes(bytes) => push_bytes(text, bytes.bytes()),
        Outcome::Count(count) => write!(text, "{count}"),
        Outcome::Word(word) => text.push_str(word),
    }
}

fn push_bytes(text: &mut String, bytes: &[u8]) -> Result<(), AllocError> {
    text.push_str("|")?;
    for byte in bytes {
        text.push(char::from(*byte))?;
    }
    text.push_str("|")
}

/// The bytes of an argument: `-` is none, and `\ff` the byte of that code.
pub fn bytes_of(alloc: Global, argument: &str) -> Result<Text, AllocError> {
    let mut text = Text::new(alloc);
    if argument == "-" {
        return Ok(text);
    }
    for (place, part) in argument.split('\\').enumerate() {
        match part.split_at_checked(2) {
            Some((code, rest)) if place > 0 => {
                text.push(u8::from_str_radix(code, 16).unwrap_or(0))?;
                text.extend(rest.as_bytes())?;
            }
            _ => text.extend(part.as_bytes())?,
        }
    }
    Ok(text)
}

/// The numbers of a line from the word with that index on.
pub fn numbers_of(alloc: Global, line: &str, index: usize) -> Result<NumberList, AllocError> {
    let mut numbers = NumberList::new(alloc);
    for word in line.split(' ').skip(index) {
        numbers.push(number(word))?;
    }
    Ok(numbers)
}
