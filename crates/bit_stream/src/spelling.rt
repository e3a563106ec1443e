//! How values and definitions are spelled.
ghost use Rattle.std.specs.Prelude.{◌≡◌, ℕ, ◌<◌, ◌≤◌, ◌+◌, ◌++◌, true, List, length, OnOk, IfOk, option_map, IsSome, Some, None};
ghost use Rattle.bit_stream.specs.Bits.Bits.{bits_of};
ghost use Rattle.std.specs.List.{flat_map};
ghost use Rattle.bit_stream.specs.Spelling.{chunks, operand_bits, definition_bits, scalar_of, element_scalar, rest_of, abbreviation_for, is_letter, letter_number, fits, value_bits, all_fit, all_bits, record_bits, each_fit, each_bits, tail_fits, with_tail, record_fits, with_record};

use crate::AbbrevOp;
use crate::abbreviation::{
    AdmittedAbbreviation, ChunkWidth, FieldWidth, MOST_OPERANDS, Tail, ValueSpelling, WIDEST_CHUNK,
    WIDEST_FIELD,
};
use crate::bits::BitSink;
use std::alloc::{AllocError, Global};

/// The flag of an operand that is no literal, and its encoding.
fn put_encoding(sink: &mut BitSink, encoding: u64) -> Result<(), AllocError>
    requires { encoding < 8 }
    ensures { OnOk result (sink.new ≡ sink.old ++ bits_of 1 0 ++ bits_of 3 encoding) }
{
    sink.fixed(0, 1)?;
    sink.fixed(encoding, 3)
}

/// An operand of a definition.
fn put_operand(sink: &mut BitSink, operand: AbbrevOp) -> Result<(), AllocError>
    ensures { OnOk result (sink.new ≡ sink.old ++ operand_bits operand) }
{
    match operand {
        AbbrevOp::Literal(number) => {
            sink.fixed(1, 1)?;
            sink.vbr(number, 8)
        }
        AbbrevOp::Fixed(width) => {
            put_encoding(sink, 1)?;
            sink.vbr(u64::from(width), 5)
        }
        AbbrevOp::Vbr(width) => {
            put_encoding(sink, 2)?;
            sink.vbr(u64::from(width), 5)
        }
        AbbrevOp::Array => put_encoding(sink, 3),
        AbbrevOp::Char6 => put_encoding(sink, 4),
        AbbrevOp::Blob => put_encoding(sink, 5),
    }
}

fn put_operands(sink: &mut BitSink, operands: &[AbbrevOp]) -> Result<(), AllocError>
    ensures { OnOk result (sink.new ≡ sink.old ++ flat_map operand_bits operands.now) }
{
    for operand in operands {
        put_operand(sink, *operand)?;
    }
    Ok(())
}

/// DEFINE_ABBREV behind its id.
#[tactic(auto, unfolding(crate::specs::Spelling::definition_bits))]
pub fn put_definition(sink: &mut BitSink, operands: &[AbbrevOp]) -> Result<(), AllocError>
    ensures { OnOk result (sink.new ≡ sink.old ++ definition_bits operands.now) }
{
    sink.vbr(operands.len() as u64, 5)?;
    put_operands(sink, operands)
}

/// The spelling of one value, where the operand is one that the format admits.
fn scalar_of(operand: AbbrevOp) -> Option<ValueSpelling>
    ensures { result ≡ scalar_of operand }
{
    match operand {
        AbbrevOp::Literal(number) => Some(ValueSpelling::Known(number)),
        AbbrevOp::Fixed(width) => {
            if width == 0 {
                Some(ValueSpelling::Known(0))
            } else if width > WIDEST_FIELD {
                None
            } else {
                Some(ValueSpelling::Field(FieldWidth::new(width)))
            }
        }
        AbbrevOp::Vbr(width) => {
            if width == 0 {
                Some(ValueSpelling::Known(0))
            } else if width == 1 || width > WIDEST_CHUNK {
                None
            } else {
                Some(ValueSpelling::Chunks(ChunkWidth::new(width)))
            }
        }
        AbbrevOp::Char6 => Some(ValueSpelling::Letter),
        AbbrevOp::Array | AbbrevOp::Blob => None,
    }
}

/// An array of such elements, which are no literals.
fn elements_of(operand: AbbrevOp) -> Option<Tail>
    ensures { result ≡ element_scalar (scalar_of operand) }
{
    match scalar_of(operand)? {
        ValueSpelling::Known(_) => None,
        ValueSpelling::Field(width) => Some(Tail::Elements(ValueSpelling::Field(width))),
        ValueSpelling::Chunks(width) => Some(Tail::Elements(ValueSpelling::Chunks(width))),
        ValueSpelling::Letter => Some(Tail::Elements(ValueSpelling::Letter)),
    }
}

/// The operands behind the first: spellings, which are added, and what ends them.
#[tactic(auto, unfolding(crate::specs::Spelling::rest_of))]
fn rest_of(operands: &mut Vec<ValueSpelling>, rest: &[AbbrevOp]) -> Result<Option<Tail>, AllocError>
    ensures { IfOk result (λ tail. option_map (λ t. (operands.new.items, t)) tail ≡ rest_of operands.old.items rest.now) }
{
    match rest {
        [] => Ok(Some(Tail::NoTail)),
        [AbbrevOp::Array, element] => Ok(elements_of(*element)),
        [AbbrevOp::Blob] => Ok(Some(Tail::Bytes)),
        [operand, more @ ..] => {
            let Some(scalar) = scalar_of(*operand) else {
                return Ok(None);
            };
            operands.push(scalar)?;
            rest_of(operands, more)
        }
    }
}

/// The abbreviation that these operands define, where the format admits them.
#[tactic(auto, unfolding(crate::specs::Spelling::abbreviation_for))]
pub fn abbreviation_for(
    alloc: Global,
    operands: &[AbbrevOp],
) -> Result<Option<AdmittedAbbreviation>, AllocError>
    ensures { IfOk result (λ abbreviation. abbreviation ≡ abbreviation_for operands.now) }
{
    let [first, more @ ..] = operands else {
        return Ok(None);
    };
    if operands.len() > MOST_OPERANDS {
        return Ok(None);
    }
    let Some(code) = scalar_of(*first) else {
        return Ok(None);
    };
    let mut spellings = Vec::new(alloc);
    let Some(tail) = rest_of(&mut spellings, more)? else {
        return Ok(None);
    };
    Ok(Some(AdmittedAbbreviation {
        code,
        operands: spellings,
        tail,
    }))
}

/// The number of one of the 64 characters.
fn letter_number(letter: u64) -> u64
    requires { is_letter letter ≡ true }
    ensures number { result ≡ letter_number letter }
    ensures small { result < 64 }
{
    match letter {
        97.. => letter - 97,
        95 => 63,
        65.. => letter - 65 + 26,
        48.. => letter - 48 + 52,
        _ => 62,
    }
}

/// One value, which fits its spelling.
#[tactic(auto, unfolding(crate::specs::Spelling::value_bits))]
fn put_value(sink: &mut BitSink, scalar: &ValueSpelling, number: u64) -> Result<(), AllocError>
    requires { fits scalar.now number ≡ true }
    ensures { OnOk result (sink.new ≡ sink.old ++ value_bits scalar.now number) }
{
    match scalar {
        ValueSpelling::Known(_) => Ok(()),
        ValueSpelling::Field(width) => sink.fixed(number, width.bits()),
        ValueSpelling::Chunks(width) => sink.vbr(number, width.bits()),
        ValueSpelling::Letter => sink.fixed(letter_number(number), 6),
    }
}

/// Values of one spelling.
fn put_all(sink: &mut BitSink, scalar: &ValueSpelling, numbers: &[u64]) -> Result<(), AllocError>
    requires { all_fit scalar.now numbers.now ≡ true }
    ensures { OnOk result (sink.new ≡ sink.old ++ all_bits scalar.now numbers.now) }
{
    for number in numbers {
        put_value(sink, scalar, *number)?;
    }
    Ok(())
}

/// As many values as there are spellings.
fn put_each(
    sink: &mut BitSink,
    scalars: &[ValueSpelling],
    numbers: &[u64],
) -> Result<(), AllocError>
    requires { each_fit scalars.now numbers.now ≡ true }
    ensures { OnOk result (sink.new ≡ sink.old ++ each_bits scalars.now numbers.now) }
{
    for index in 0..scalars.len() {
        put_value(sink, &scalars[index], numbers[index])?;
    }
    Ok(())
}

/// UNABBREV_RECORD behind its id.
#[tactic(auto, using(crate::proofs::Spelled::any_chunks), unfolding(crate::specs::Spelling::record_bits))]
pub fn put_record(sink: &mut BitSink, code: u32, operands: &[u64]) -> Result<(), AllocError>
    ensures { OnOk result (sink.new ≡ sink.old ++ record_bits code operands.now) }
{
    sink.vbr(u64::from(code), 6)?;
    sink.vbr(operands.len() as u64, 6)?;
    put_all(sink, &ValueSpelling::Chunks(ChunkWidth::new(6)), operands)
}

/// What follows the values that are spelled one by one.
#[tactic(auto, unfolding(crate::specs::Spelling::tail_fits, crate::specs::Spelling::with_tail))]
fn put_tail(sink: &mut BitSink, tail: &Tail, numbers: &[u64]) -> Result<(), AllocError>
    requires { tail_fits tail.now numbers.now ≡ true }
    ensures { OnOk result (sink.new ≡ with_tail tail.now numbers.now sink.old) }
{
    match tail {
        Tail::NoTail => Ok(()),
        Tail::Elements(scalar) => {
            sink.vbr(numbers.len() as u64, 6)?;
            put_all(sink, scalar, numbers)
        }
        Tail::Bytes => {
            sink.vbr(numbers.len() as u64, 6)?;
            sink.align()?;
            put_all(sink, &ValueSpelling::Field(FieldWidth::new(8)), numbers)?;
            sink.align()
        }
    }
}

/// A record by an abbreviation, behind its id.
#[tactic(auto, unfolding(crate::specs::Spelling::record_fits, crate::specs::Spelling::with_record))]
pub fn put_abbreviated(
    sink: &mut BitSink,
    abbreviation: &AdmittedAbbreviation,
    code: u32,
    operands: &[u64],
) -> Result<(), AllocError>
    requires { record_fits (Some abbreviation.now) code operands.now ≡ true }
    ensures { OnOk result (sink.new ≡ with_record (Some abbreviation.now) code operands.now sink.old) }
{
    let count = abbreviation.operands.len();
    put_value(sink, &abbreviation.code, u64::from(code))?;
    put_each(sink, &abbreviation.operands, &operands[..count])?;
    put_tail(sink, &abbreviation.tail, &operands[count..])
}
