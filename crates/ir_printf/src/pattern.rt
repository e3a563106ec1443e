//! The pieces of a pattern.
ghost use Rattle.std.specs.Prelude.{◌≡◌, ◌+◌, ◌<◌, ◌≤◌, length, Some, IfOk, IfSome, OnSome};
ghost use Rattle.std.specs.List.{prefix_len};
ghost use Rattle.std.specs.Option.{option_map};
ghost use Rattle.ir_printf.specs.Pattern.{is_flag, begins_with, flags_size, digits_size, precision_size, length_in, kind_of, kind_at, small_number, precision_in, has_byte, may_have, written_conversion, conversion_in, conversion_size, width_end, precision_end, length_end, is_literal, piece_at, piece_end, ReadsWhole};

use crate::{Conversion, ConversionKind, Length};
use thiserror::Error;

/// A piece of a pattern. Places are counted in bytes from the pattern's beginning.
pub enum PatternPiece {
    /// Bytes that are written as they are: where they begin, and where they end.
    Literal(usize, usize),
    /// A conversion, and where it ends.
    Convert(Conversion, usize),
    /// The pattern's end.
    End,
}

/// A `%` that begins no conversion, at this byte of the pattern.
#[derive(Debug, Drop, Error)]
#[error("bad format at byte {at}")]
pub struct BadFormat {
    pub at: usize,
}

// The greatest width and precision.
const MOST: u32 = 4_095;

const PERCENT: Conversion = Conversion {
    kind: ConversionKind::Percent,
    left_justified: false,
    zero: false,
    plus: false,
    space: false,
    width: 0,
    precision: None,
    length: Length::Word,
};

fn is_flag(byte: u8) -> bool
    ensures { result ≡ is_flag byte }
{
    matches!(byte, b'-' | b'0' | b'+' | b' ')
}

fn begins_with(byte: u8, bytes: &[u8]) -> bool
    ensures { result ≡ begins_with byte bytes.now }
{
    match bytes.first() {
        Some(first) => *first == byte,
        None => false,
    }
}

fn flags_size(bytes: &[u8]) -> usize
    ensures size { result ≡ flags_size bytes.now }
    ensures within { result ≤ length bytes.now }
{
    bytes.iter().take_while(|byte| is_flag(**byte)).count()
}

fn digits_size(bytes: &[u8]) -> usize
    ensures size { result ≡ digits_size bytes.now }
    ensures within { result ≤ length bytes.now }
{
    bytes
        .iter()
        .take_while(|byte| b'0' <= **byte && **byte <= b'9')
        .count()
}

fn precision_size(bytes: &[u8]) -> usize
    ensures size { result ≡ precision_size bytes.now }
    ensures within { result ≤ length bytes.now }
{
    if begins_with(b'.', bytes) {
        digits_size(&bytes[1..]) + 1
    } else {
        0
    }
}

/// The length that stands first, and the count of its bytes.
fn length_in(bytes: &[u8]) -> (Length, usize)
    ensures value { result ≡ length_in bytes.now }
    ensures within { result.1 ≤ length bytes.now }
{
    match bytes {
        [b'h', b'h', ..] => (Length::Byte, 2),
        [b'h', ..] => (Length::Half, 1),
        [b'l', b'l', ..] => (Length::Long, 2),
        [b'l' | b'j' | b'z' | b't', ..] => (Length::Long, 1),
        _ => (Length::Word, 0),
    }
}

fn kind_of(byte: u8) -> Option<ConversionKind>
    ensures { result ≡ kind_of byte }
{
    match byte {
        b'd' | b'i' => Some(ConversionKind::Signed),
        b'u' => Some(ConversionKind::Unsigned),
        b'x' => Some(ConversionKind::LowerHex),
        b'X' => Some(ConversionKind::UpperHex),
        b'o' => Some(ConversionKind::Octal),
        b'c' => Some(ConversionKind::Char),
        b's' => Some(ConversionKind::Bytes),
        _ => None,
    }
}

/// The number that the digits write, and None where it is over 4,095.
fn small_number(digits: &[u8]) -> Option<u32>
    ensures { result ≡ small_number digits.now }
{
    let mut number = 0;
    for digit in digits {
        number = number * 10 + u32::from(digit.saturating_sub(b'0'));
        if number > MOST {
            return None;
        }
    }
    Some(number)
}

/// A precision as it is written: none, or a dot and digits. None where it is over 4,095.
fn precision_in(bytes: &[u8]) -> Option<Option<u32>>
    ensures { result ≡ precision_in bytes.now }
{
    if bytes.is_empty() {
        return Some(None);
    }
    let precision = small_number(&bytes[1..])?;
    Some(Some(precision))
}

fn has_byte(byte: u8, bytes: &[u8]) -> bool
    ensures { result ≡ has_byte byte bytes.now }
{
    bytes.iter().any(|other| *other == byte)
}

/// Whether such a conversion may have that length: `c` and `s` have none.
fn may_have(kind: ConversionKind, length: Length) -> bool
    ensures { result ≡ may_have kind length }
{
    match kind {
        ConversionKind::Char | ConversionKind::Bytes | ConversionKind::Percent => matches!(
            length,
            Length::Word
        ),
        _ => true,
    }
}

/// Where the flags, the width, the precision and the length end behind a `%`.
#[derive(Clone, Copy)]
struct Ends {
    flags: usize,
    width: usize,
    precision: usize,
    length: usize,
}

fn ends_of(bytes: &[u8]) -> Ends
    ensures flags { result.flags ≡ flags_size bytes.now }
    ensures width { result.width ≡ width_end bytes.now }
    ensures precision { result.precision ≡ precision_end bytes.now }
    ensures length { result.length ≡ length_end bytes.now }
    ensures before_width { result.flags ≤ result.width }
    ensures before_precision { result.width ≤ result.precision }
    ensures before_length { result.precision ≤ result.length }
    ensures within { result.length ≤ length bytes.now }
{
    let flags = flags_size(bytes);
    let width = flags + digits_size(&bytes[flags..]);
    let precision = width + precision_size(&bytes[width..]);
    let (_, size) = length_in(&bytes[precision..]);
    Ends {
        flags,
        width,
        precision,
        length: precision + size,
    }
}

/// The kind that the byte at this place tells.
fn kind_at(bytes: &[u8], at: usize) -> Option<ConversionKind>
    ensures kind { result ≡ kind_at bytes.now at }
    ensures within { OnSome result (at < length bytes.now) }
{
    kind_of(*bytes.get(at)?)
}

/// The conversion of the parts that end there.
#[tactic(auto, unfolding(crate::specs::Pattern::written_conversion))]
fn written_conversion(bytes: &[u8], ends: Ends) -> Option<Conversion>
    requires flags { ends.flags ≡ flags_size bytes.now }
    requires width { ends.width ≡ width_end bytes.now }
    requires precision { ends.precision ≡ precision_end bytes.now }
    requires length { ends.length ≡ length_end bytes.now }
    requires before_width { ends.flags ≤ ends.width }
    requires before_precision { ends.width ≤ ends.precision }
    requires before_length { ends.precision ≤ ends.length }
    requires within { ends.length ≤ length bytes.now }
    ensures conversion { result ≡ written_conversion bytes.now }
    ensures within { OnSome result (ends.length < length bytes.now) }
{
    let flags = &bytes[..ends.flags];
    let kind = kind_at(bytes, ends.length)?;
    let (length, _) = length_in(&bytes[ends.precision..]);
    let width = small_number(&bytes[ends.flags..ends.width])?;
    let precision = precision_in(&bytes[ends.width..ends.precision])?;
    if !may_have(kind, length) {
        return None;
    }
    Some(Conversion {
        kind,
        left_justified: has_byte(b'-', flags),
        zero: has_byte(b'0', flags),
        plus: has_byte(b'+', flags),
        space: has_byte(b' ', flags),
        width,
        precision,
        length,
    })
}

/// The conversion that a letter tells alone, where it stands first: without flags, a width, a precision and a length.
fn plain_conversion(bytes: &[u8]) -> Option<Conversion>
    ensures conversion { IfSome result (λ c. written_conversion bytes.now ≡ Some c) }
    ensures end { OnSome result (length_end bytes.now ≡ 0) }
    ensures within { OnSome result (0 < length bytes.now) }
{
    let kind = kind_at(bytes, 0)?;
    Some(Conversion {
        kind,
        left_justified: false,
        zero: false,
        plus: false,
        space: false,
        width: 0,
        precision: None,
        length: Length::Word,
    })
}

/// The conversion with which the bytes behind a `%` begin, and how many of them it takes.
#[tactic(auto, unfolding(crate::specs::Pattern::conversion_in, crate::specs::Pattern::conversion_size))]
fn conversion_in(bytes: &[u8]) -> Option<(Conversion, usize)>
    ensures conversion { option_map (λ c. c.0) result ≡ conversion_in bytes.now }
    ensures size { IfSome result (λ c. c.1 ≡ conversion_size bytes.now) }
    ensures within { IfSome result (λ c. c.1 ≤ length bytes.now) }
{
    if begins_with(b'%', bytes) {
        return Some((PERCENT, 1));
    }
    if let Some(conversion) = plain_conversion(bytes) {
        return Some((conversion, 1));
    }
    let ends = ends_of(bytes);
    let conversion = written_conversion(bytes, ends)?;
    Some((conversion, ends.length + 1))
}

/// The piece of the pattern that begins at a byte of it, or at its end. `BadFormat` exactly where a `%` stands there that
/// begins no conversion (C, "The fprintf function"): flags, a width and a precision of at most 4,095, a length, and a letter.
pub fn next_piece(pattern: &[u8], at: usize) -> Result<PatternPiece, BadFormat>
    requires { at ≤ length pattern.now }
    ensures piece { result ≡ piece_at pattern.now at }
    ensures within { IfOk result (λ piece. piece_end at piece ≤ length pattern.now) }
    ensures behind { IfOk result (λ piece. at ≤ piece_end at piece) }
    ensures further { IfOk result (λ piece. at < length pattern.now → at < piece_end at piece) }
{
    let rest = &pattern[at..];
    match rest.first() {
        None => Ok(PatternPiece::End),
        Some(b'%') => match conversion_in(&rest[1..]) {
            Some((conversion, size)) => Ok(PatternPiece::Convert(conversion, at + 1 + size)),
            None => Err(BadFormat { at }),
        },
        Some(_) => Ok(PatternPiece::Literal(at, at + literal_size(rest))),
    }
}

/// How many bytes stand before the first `%`.
fn literal_size(bytes: &[u8]) -> usize
    ensures size { result ≡ prefix_len is_literal bytes.now }
    ensures within { result ≤ length bytes.now }
{
    bytes.iter().take_while(|byte| **byte != b'%').count()
}

/// A pattern that is read piece by piece is the pattern: the places of its pieces join.
pub fn a_pattern_is_its_pieces()
    ensures { ReadsWhole }
{}
