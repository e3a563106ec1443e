//! What conversions write.
ghost use Rattle.std.specs.Prelude.{◌≡◌, ◌⊎◌, ◌+◌, ◌-◌, ◌<◌, ◌^◌, ◌++◌, length, replicate, string_bytes, IfOk, OnOk, OnErr, IsTrue};
ghost use Rattle.std.specs.Fmt.{decimal};
ghost use Rattle.ir_printf.specs.Printed.{bits_of, cut, is_signed, is_negative, magnitude, numeral, with_zeros, precise_digits, sign, fills_with_zeros, filled, printed_number, precise_bytes, spaced, printed_bytes, is_number, is_long, is_short, short_number, AreBytesFor};

use crate::{Conversion, ConversionKind, Length};
use ir_base::Text;
use itoa::Buffer;
use std::alloc::{AllocError, Global};

/// The argument, cut to the bits that the length tells.
fn cut(length: Length, bits: u64) -> u64
    ensures value { result ≡ cut length bits }
    ensures below { result < 2 ^ bits_of length }
{
    match length {
        Length::Byte => bits % 0x100,
        Length::Half => bits % 0x1_0000,
        Length::Word => bits % 0x1_0000_0000,
        Length::Long => bits,
    }
}

/// Whether a signed number of so many bits, of which the rest are cut off, is below zero.
fn is_negative(kind: ConversionKind, length: Length, bits: u64) -> bool
    ensures { result ≡ is_negative kind length bits }
{
    let number = cut(length, bits);
    let least = match length {
        Length::Byte => 0x80,
        Length::Half => 0x8000,
        Length::Word => 0x8000_0000,
        Length::Long => 0x8000_0000_0000_0000,
    };
    matches!(kind, ConversionKind::Signed) && least <= number
}

/// The number without its sign.
fn magnitude(kind: ConversionKind, length: Length, bits: u64) -> u64
    ensures { result ≡ magnitude kind length bits }
{
    let number = cut(length, bits);
    if !is_negative(kind, length, bits) {
        return number;
    }
    match length {
        Length::Byte => 0x100 - number,
        Length::Half => 0x1_0000 - number,
        Length::Word => 0x1_0000_0000 - number,
        Length::Long => u64::MAX - number + 1,
    }
}

/// The number in the base of the conversion.
fn numeral(alloc: Global, kind: ConversionKind, number: u64) -> Result<String, AllocError>
    ensures { IfOk result (λ digits. string_bytes digits ≡ numeral kind number) }
{
    match kind {
        ConversionKind::LowerHex => format!(in alloc; "{number:x}"),
        ConversionKind::UpperHex => format!(in alloc; "{number:X}"),
        ConversionKind::Octal => format!(in alloc; "{number:o}"),
        _ => format!(in alloc; "{number}"),
    }
}

/// Adds a byte so many times.
fn put_times(text: &mut Text, byte: u8, times: usize) -> Result<(), AllocError>
    ensures { OnOk result (text.new ≡ text.old ++ replicate times byte) }
{
    'times: for _ in 0..times {
        text.push(byte)?;
    }
    Ok(())
}

/// The digits, with zeros before them up to a least count.
fn with_zeros(alloc: Global, least: u32, digits: &[u8]) -> Result<Text, AllocError>
    ensures { IfOk result (λ text. text ≡ with_zeros least digits.now) }
{
    let mut text = Text::new(alloc);
    put_times(
        &mut text,
        b'0',
        (least as usize).saturating_sub(digits.len()),
    )?;
    text.extend(digits)?;
    Ok(text)
}

/// The digits of a number that the precision asks for.
fn precise_digits(
    alloc: Global,
    kind: ConversionKind,
    precision: Option<u32>,
    number: u64,
) -> Result<Text, AllocError>
    ensures { IfOk result (λ text. text ≡ precise_digits kind precision number) }
{
    let digits = numeral(alloc, kind, number)?;
    match precision {
        None => Ok(Text::from_vec(digits.into_bytes())),
        Some(0) if number == 0 => Ok(Text::new(alloc)),
        Some(least) => with_zeros(alloc, least, digits.as_bytes()),
    }
}

/// What stands before the digits.
fn sign(conversion: &Conversion, is_negative: bool) -> &'static [u8]
    ensures { result.now ≡ sign conversion.now is_negative }
{
    let is_signed = matches!(conversion.kind, ConversionKind::Signed);
    if is_negative {
        b"-"
    } else if is_signed && conversion.plus {
        b"+"
    } else if is_signed && conversion.space {
        b" "
    } else {
        b""
    }
}

/// The sign and the digits, filled to the width.
fn filled(
    alloc: Global,
    conversion: &Conversion,
    front: &[u8],
    digits: &[u8],
) -> Result<Text, AllocError>
    requires { length front.now + length digits.now < 2 ^ 64 }
    ensures { IfOk result (λ text. text ≡ filled conversion.now front.now digits.now) }
{
    let room = (conversion.width as usize).saturating_sub(front.len() + digits.len());
    let fills_with_zeros = conversion.zero && conversion.precision.is_none();
    let mut text = Text::new(alloc);
    if conversion.left_justified {
        text.extend(front)?;
        text.extend(digits)?;
        put_times(&mut text, b' ', room)?;
    } else if fills_with_zeros {
        text.extend(front)?;
        put_times(&mut text, b'0', room)?;
        text.extend(digits)?;
    } else {
        put_times(&mut text, b' ', room)?;
        text.extend(front)?;
        text.extend(digits)?;
    }
    Ok(text)
}

/// What a conversion writes of a number, whose bits are those of the argument (C, "The fprintf function").
pub fn number_text(alloc: Global, conversion: &Conversion, bits: u64) -> Result<Text, AllocError>
    requires number { IsTrue (is_number conversion.now.kind) }
    requires fits { IsTrue (is_long conversion.now.length) ⊎ (bits < 2 ^ 32) }
    ensures { IfOk result (λ text. text ≡ printed_number conversion.now bits) }
{
    let is_negative = is_negative(conversion.kind, conversion.length, bits);
    let number = magnitude(conversion.kind, conversion.length, bits);
    let digits = precise_digits(alloc, conversion.kind, conversion.precision, number)?;
    filled(
        alloc,
        conversion,
        sign(conversion, is_negative),
        digits.bytes(),
    )
}

/// Whether a conversion writes a number in decimal, which nothing fills.
fn is_short(conversion: &Conversion) -> bool
    ensures { result ≡ is_short conversion.now }
{
    match conversion.kind {
        ConversionKind::Signed | ConversionKind::Unsigned => {
            conversion.width == 0 && conversion.precision.is_none()
        }
        _ => false,
    }
}

/// Adds what stands before the digits, or nothing where memory is wanted. Where nothing does, as before most numbers,
/// no range is copied.
#[inline(always)]
fn put_front(front: &[u8], into: &mut Vec<u8>) -> Result<(), AllocError>
    ensures ok { OnOk result (into.new.items ≡ into.old.items ++ front.now) }
    ensures err { OnErr result (into.new.items ≡ into.old.items) }
{
    if front.is_empty() {
        return Ok(());
    }
    into.extend_from_slice(front)?;
    Ok(())
}

/// Adds a sign, and a number in decimal, or nothing where memory is wanted.
fn put_decimal(front: &[u8], number: u64, into: &mut Vec<u8>) -> Result<(), AllocError>
    ensures ok { OnOk result (into.new.items ≡ into.old.items ++ (front.now ++ decimal number)) }
    ensures err { OnErr result (into.new.items ≡ into.old.items) }
{
    let before = into.len();
    put_front(front, into)?;
    let mut buffer = Buffer::new();
    let digits = buffer.format(number).as_bytes();
    match into.extend_from_slice(digits) {
        Ok(()) => Ok(()),
        Err(fault) => {
            into.truncate(before);
            Err(fault)
        }
    }
}

/// Adds what a short conversion writes of a number, or nothing where memory is wanted.
fn put_short(conversion: &Conversion, bits: u64, into: &mut Vec<u8>) -> Result<(), AllocError>
    ensures ok { OnOk result (into.new.items ≡ into.old.items ++ short_number conversion.now bits) }
    ensures err { OnErr result (into.new.items ≡ into.old.items) }
{
    let is_negative = is_negative(conversion.kind, conversion.length, bits);
    let number = magnitude(conversion.kind, conversion.length, bits);
    put_decimal(sign(conversion, is_negative), number, into)
}

/// Adds what `number_text` gives behind other bytes, or nothing where memory is wanted. Of a number in decimal that nothing fills no
/// copy is kept elsewhere meanwhile.
pub fn put_number(
    alloc: Global,
    conversion: &Conversion,
    bits: u64,
    into: &mut Vec<u8>,
) -> Result<(), AllocError>
    requires number { IsTrue (is_number conversion.now.kind) }
    requires fits { IsTrue (is_long conversion.now.length) ⊎ (bits < 2 ^ 32) }
    ensures ok { OnOk result (into.new.items ≡ into.old.items ++ printed_number conversion.now bits) }
    ensures err { OnErr result (into.new.items ≡ into.old.items) }
{
    if is_short(conversion) {
        return put_short(conversion, bits, into);
    }
    let text = number_text(alloc, conversion, bits)?;
    into.extend_from_slice(text.bytes())?;
    Ok(())
}

/// The bytes that the precision allows.
fn precise_bytes<'b>(conversion: &Conversion, bytes: &'b [u8]) -> &'b [u8]
    ensures { result.now ≡ precise_bytes conversion.now.kind conversion.now.precision bytes.now }
{
    match (conversion.kind, conversion.precision) {
        (ConversionKind::Bytes, Some(most)) if (most as usize) < bytes.len() =>
            &bytes[..most as usize],
        _ => bytes,
    }
}

/// What a conversion writes of one byte (`c`) or of a string (`s`).
pub fn bytes_text(alloc: Global, conversion: &Conversion, bytes: &[u8]) -> Result<Text, AllocError>
    requires { AreBytesFor conversion.now.kind bytes.now }
    ensures { IfOk result (λ text. text ≡ printed_bytes conversion.now bytes.now) }
{
    let shown = precise_bytes(conversion, bytes);
    let room = (conversion.width as usize).saturating_sub(shown.len());
    let mut text = Text::new(alloc);
    if conversion.left_justified {
        text.extend(shown)?;
        put_times(&mut text, b' ', room)?;
    } else {
        put_times(&mut text, b' ', room)?;
        text.extend(shown)?;
    }
    Ok(text)
}

/// Adds what `bytes_text` gives behind other bytes, or nothing where memory is wanted. Of bytes that nothing fills, no copy is kept
/// elsewhere meanwhile.
pub fn put_bytes(
    alloc: Global,
    conversion: &Conversion,
    bytes: &[u8],
    into: &mut Vec<u8>,
) -> Result<(), AllocError>
    requires { AreBytesFor conversion.now.kind bytes.now }
    ensures ok { OnOk result (into.new.items ≡ into.old.items ++ printed_bytes conversion.now bytes.now) }
    ensures err { OnErr result (into.new.items ≡ into.old.items) }
{
    let width = conversion.width;
    if width == 0 {
        into.extend_from_slice(precise_bytes(conversion, bytes))?;
        return Ok(());
    }
    let text = bytes_text(alloc, conversion, bytes)?;
    into.extend_from_slice(text.bytes())?;
    Ok(())
}
