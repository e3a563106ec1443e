//! What came of a run, as text.

use ir_base::Text;
use std::alloc::{AllocError, Global};

/// Adds a text.
pub fn add(told: &mut Vec<u8>, text: &str) -> Result<(), AllocError> {
    told.extend_from_slice(text.as_bytes())
}

/// Adds a number in decimal digits.
pub fn add_number(told: &mut Vec<u8>, alloc: Global, number: u64) -> Result<(), AllocError> {
    let digits = format!(in alloc; "{number}")?;
    add(told, digits.as_str())
}

// The hexadecimal digit of a number below 16.
fn digit(number: u8) -> u8 {
    if number < 10 {
        b'0'.wrapping_add(number)
    } else {
        b'a'.wrapping_add(number.wrapping_sub(10))
    }
}

// Adds a byte, with an escape where it is not printed as it is.
fn add_byte(told: &mut Vec<u8>, byte: u8) -> Result<(), AllocError> {
    match byte {
        b'\\' => add(told, "\\\\"),
        b' '..=b'~' => Ok(told.push(byte)?),
        _ => {
            add(told, "\\x")?;
            told.push(digit(byte / 16))?;
            Ok(told.push(digit(byte % 16))?)
        }
    }
}

// Adds bytes with escapes.
fn add_escaped(told: &mut Vec<u8>, bytes: &[u8]) -> Result<(), AllocError> {
    for byte in bytes {
        add_byte(told, *byte)?;
    }
    Ok(())
}

/// Adds a word as the script has it.
pub fn add_word(told: &mut Vec<u8>, word: &[u8]) -> Result<(), AllocError> {
    if word.is_empty() {
        return add(told, "\"\"");
    }
    for byte in word {
        if *byte == b' ' {
            add(told, "\\x20")?;
        } else {
            add_byte(told, *byte)?;
        }
    }
    Ok(())
}

/// Adds bytes as lines: `|` before each line, and `+` before a last one that no line feed ends.
pub fn add_content(told: &mut Vec<u8>, bytes: &[u8]) -> Result<(), AllocError> {
    for line in bytes.split_inclusive(|byte| *byte == b'\n') {
        let (mark, text) = match line {
            [text @ .., b'\n'] => ("| ", text),
            text => ("+ ", text),
        };
        add(told, mark)?;
        add_escaped(told, text)?;
        add(told, "\n")?;
    }
    Ok(())
}

/// Adds what a stream took under its name, where it took anything.
pub fn add_stream(told: &mut Vec<u8>, name: &str, bytes: &[u8]) -> Result<(), AllocError> {
    if bytes.is_empty() {
        return Ok(());
    }
    add(told, name)?;
    add(told, "\n")?;
    add_content(told, bytes)
}

/// Adds the names of the files that were read, where there are any.
pub fn add_names(told: &mut Vec<u8>, names: &[Text]) -> Result<(), AllocError> {
    if names.is_empty() {
        return Ok(());
    }
    add(told, "files")?;
    for name in names {
        add(told, " ")?;
        add_word(told, name.bytes())?;
    }
    add(told, "\n")
}
