//! What a pattern of `printf` writes.
//!
//! The parts of a line are separated by tabs: the pattern, and an argument for each of its
//! conversions, a number from 0 to 2^64 - 1 or a text. The answer is the text in brackets, or why
//! there is none.
ghost use Rattle.std.specs.Prelude.{◌⊎◌, ◌<◌, ◌^◌, IsTrue};
ghost use Rattle.ir_printf.specs.Printed.{is_long};

use crate::word::shown;
use ir_base::Text;
use ir_printf::{
    Conversion, ConversionKind, Length, PatternPiece, bytes_text, next_piece, number_text,
};
use std::alloc::{AllocError, Global};

/// What a line comes to.
#[derive(Drop)]
enum Written {
    /// What the pattern and its arguments write.
    Text(Text),
    /// The place of a `%` that begins no conversion.
    BadFormat(usize),
    /// A conversion of a number has none.
    NoArgument,
}

/// Adds the answer to the line.
pub fn push_answer(text: &mut String, alloc: Global, line: &str) -> Result<(), AllocError> {
    let (pattern, arguments) = line.split_once('\t').unwrap_or((line, ""));
    match write_pattern(alloc, pattern.as_bytes(), arguments)? {
        Written::Text(bytes) => write!(text, "[{}]", shown(bytes.bytes())),
        Written::BadFormat(at) => write!(text, "bad format at {at}"),
        Written::NoArgument => text.push_str("no argument"),
    }
}

// What the pattern writes of these arguments.
fn write_pattern(alloc: Global, pattern: &[u8], arguments: &str) -> Result<Written, AllocError> {
    let mut arguments = arguments.split('\t');
    let mut text = Text::new(alloc);
    let mut at = 0;
    'pieces: for _ in 0..=pattern.len() {
        match next_piece(pattern, at) {
            Ok(PatternPiece::End) => break,
            Ok(PatternPiece::Literal(_, to)) => {
                text.extend(&pattern[at..to])?;
                at = to;
            }
            Ok(PatternPiece::Convert(conversion, to)) => {
                at = to;
                if matches!(conversion.kind, ConversionKind::Percent) {
                    text.push(b'%')?;
                    continue;
                }
                match converted(alloc, &conversion, arguments.next().unwrap_or(""))? {
                    Some(part) => text.extend(part.bytes())?,
                    None => return Ok(Written::NoArgument),
                }
            }
            Err(fault) => return Ok(Written::BadFormat(fault.at)),
        }
    }
    Ok(Written::Text(text))
}

// What a conversion writes of an argument, and None where it takes a number and there is none.
fn converted(
    alloc: Global,
    conversion: &Conversion,
    argument: &str,
) -> Result<Option<Text>, AllocError> {
    match conversion.kind {
        ConversionKind::Bytes => bytes_text(alloc, conversion, argument.as_bytes()).map(Some),
        ConversionKind::Char => match argument.parse::<u64>() {
            Ok(number) => bytes_text(alloc, conversion, &[(number % 256) as u8]).map(Some),
            Err(_) => Ok(None),
        },
        ConversionKind::Percent => Ok(None),
        _ => match argument.parse::<u64>() {
            Ok(number) => number_text(alloc, conversion, taken(conversion.length, number)).map(
                Some,
            ),
            Err(_) => Ok(None),
        },
    }
}

// The bits of a number that an argument of that length has.
fn taken(length: Length, number: u64) -> u64
    ensures { IsTrue (is_long length) ⊎ (result < 2 ^ 32) }
{
    match length {
        Length::Long => number,
        _ => number % 0x1_0000_0000,
    }
}
