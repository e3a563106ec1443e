//! The words of a line, with one space between two.
use crate::answer::Refusal;
use ir_base::{Name, Text};
use std::alloc::{AllocError, Global};

/// The word with that index, an empty one where there are fewer.
pub fn word(line: &str, index: usize) -> &str {
    line.split(' ').nth(index).unwrap_or("")
}

/// The words after the first one as numbers. A word that is none counts as the largest.
pub fn numbers(alloc: Global, line: &str) -> Result<Vec<u64>, AllocError> {
    let mut numbers = Vec::new(alloc);
    for word in line.split(' ').skip(1) {
        numbers.push(word.parse::<u64>().unwrap_or(u64::MAX))?;
    }
    Ok(numbers)
}

/// The word as a text.
pub fn text(alloc: Global, word: &str) -> Result<Text, AllocError> {
    Text::from_slice(alloc, word.as_bytes())
}

/// The word as a name.
pub fn name(alloc: Global, word: &str) -> Result<Name, Refusal> {
    match Name::from_text(text(alloc, word)?) {
        Ok(name) => Ok(name),
        Err(_) => Err(Refusal::NoCall),
    }
}

/// The bytes as characters.
pub fn shown(bytes: &[u8]) -> &str {
    str::from_utf8(bytes).unwrap_or("?")
}
