//! Texts, numbers and bytes, added to what is told.

use std::alloc::{AllocError, Global};

/// Adds a text.
pub(crate) fn add(told: &mut Vec<u8>, text: &str) -> Result<(), AllocError> {
    told.extend_from_slice(text.as_bytes())
}

/// Adds a number in decimal digits.
pub(crate) fn add_number(told: &mut Vec<u8>, alloc: Global, number: u64) -> Result<(), AllocError> {
    let digits = format!(in alloc; "{number}")?;
    add(told, digits.as_str())
}

// The hexadecimal digit of a number below 16.
fn digit(number: u8) -> u8 {
    if number < 10 {
        b'0'.wrapping_add(number)
    } else {
        b'a'.wrapping_add(number.wrapping_sub(10))
    }
}

// Adds a byte, with an escape where it is not printed as it is.
fn add_byte(told: &mut Vec<u8>, byte: u8) -> Result<(), AllocError> {
    match byte {
        b'\\' => add(told, "\\\\"),
        b' '..=b'~' => Ok(told.push(byte)?),
        _ => {
            add(told, "\\x")?;
            told.push(digit(byte / 16))?;
            Ok(told.push(digit(byte % 16))?)
        }
    }
}

/// Adds bytes with escapes.
pub(crate) fn add_escaped(told: &mut Vec<u8>, bytes: &[u8]) -> Result<(), AllocError> {
    for byte in bytes {
        add_byte(told, *byte)?;
    }
    Ok(())
}
