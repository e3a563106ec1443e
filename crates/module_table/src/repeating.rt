//! Lines that stand for many.

use crate::lines::{number_of, parts};
use std::alloc::{AllocError, Global};

/// Adds a line with the number in place of each `#`.
fn add_numbered(
    alloc: Global,
    text: &mut Vec<u8>,
    number: u64,
    line: &[u8],
) -> Result<(), AllocError> {
    let digits = format!(in alloc; "{number}")?;
    for byte in line {
        if *byte == b'#' {
            text.extend_from_slice(digits.as_bytes())?;
        } else {
            text.push(*byte)?;
        }
    }
    Ok(())
}

/// Adds the lines that a line stands for: itself, or so many where it begins `# N `.
fn add_line(alloc: Global, text: &mut Vec<u8>, line: &[u8]) -> Result<(), AllocError> {
    let (mark, rest) = parts(line);
    if mark != b"#".as_slice() {
        return text.extend_from_slice(line);
    }
    let (count, line) = parts(rest);
    for number in 0..number_of(count) {
        add_numbered(alloc, text, number, line)?;
    }
    Ok(())
}

/// The text that lines stand for.
pub(crate) fn repeated(alloc: Global, lines: &[u8]) -> Result<Vec<u8>, AllocError> {
    let mut text = Vec::new(alloc);
    for line in lines.split_inclusive(|byte| *byte == b'\n') {
        add_line(alloc, &mut text, line)?;
    }
    Ok(text)
}
