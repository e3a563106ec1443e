//! The parts of a line of the script.

use std::alloc::{AllocError, Global};

/// What stands before the first space, and what stands behind it.
pub(crate) fn parts(line: &[u8]) -> (&[u8], &[u8]) {
    match line.iter().position(|byte| *byte == b' ') {
        Some(at) => (&line[..at], &line[at + 1..]),
        None => (line, b""),
    }
}

/// The number that decimal digits spell, or 0.
pub(crate) fn number_of(digits: &[u8]) -> u64 {
    match str::from_utf8(digits) {
        Ok(digits) => digits.parse::<u64>().unwrap_or(0),
        Err(_) => 0,
    }
}

// The number of a hexadecimal digit, or 0.
fn digit_of(byte: u8) -> u8 {
    match byte {
        b'0'..=b'9' => byte - b'0',
        b'a'..=b'f' => byte - b'a' + 10,
        _ => 0,
    }
}

// The byte of two hexadecimal digits.
fn byte_of(high: u8, low: u8) -> u8 {
    digit_of(high).wrapping_mul(16).wrapping_add(digit_of(low))
}

// How far an escape has been read.
#[derive(Clone, Copy)]
enum Escape {
    /// None has begun.
    Outside,
    /// Its backslash.
    Begun,
    /// Its backslash and the `x` before two digits.
    Digits,
    /// All but its last digit; the first is this.
    LastDigit(u8),
}

/// The bytes that a text with escapes stands for.
pub(crate) fn unescaped(alloc: Global, text: &[u8]) -> Result<Vec<u8>, AllocError> {
    let mut bytes = Vec::new(alloc);
    let mut escape = Escape::Outside;
    for byte in text {
        escape = match escape {
            Escape::Outside if *byte == b'\\' => Escape::Begun,
            Escape::Begun if *byte == b'x' => Escape::Digits,
            Escape::Digits => Escape::LastDigit(*byte),
            Escape::Outside | Escape::Begun => {
                bytes.push(*byte)?;
                Escape::Outside
            }
            Escape::LastDigit(high) => {
                bytes.push(byte_of(high, *byte))?;
                Escape::Outside
            }
        };
    }
    Ok(bytes)
}
