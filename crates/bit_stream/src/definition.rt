//! The definition of an abbreviation (LLVM Bitcode File Format, "DEFINE_ABBREV Encoding").
ghost use Rattle.std.specs.Prelude.{◌≡◌, ℕ, ◌≤◌};
ghost use Rattle.bit_stream.specs.Bits.Cursor.{found_at};
ghost use Rattle.bit_stream.specs.Answers.{Ran};
ghost use Rattle.bit_stream.specs.Definition.{field_width, chunk_width, encoding, scalar_by, literal, first_operand, element, part_by, part, parts, defined_abbreviation};

use crate::StreamFault;
use crate::abbreviation::{
    AdmittedAbbreviation, ChunkWidth, FieldWidth, MOST_OPERANDS, Tail, ValueSpelling, WIDEST_CHUNK,
    WIDEST_FIELD,
};
use crate::bits::{BitCursor, BitFault};
use crate::fault::bad_abbreviation;
use std::alloc::Global;

/// How an operand is encoded, in the order of the encodings' numbers from 1.
#[derive(Clone, Copy)]
pub enum Encoding {
    /// A field of a fixed width.
    AsField,
    /// A number in chunks of a width.
    AsChunks,
    /// An array, whose elements the next operand encodes.
    AsArray,
    /// A letter, in 6 bits.
    AsLetter,
    /// Bytes.
    AsBlob,
}

/// A later operand of a definition: a value, or what ends the list.
#[derive(Clone, Copy)]
pub enum DefinitionPart {
    /// One value more.
    Value(ValueSpelling),
    /// What ends the list.
    End(Tail),
}

#[tactic(auto, unfolding(crate::specs::Definition::field_width))]
fn field_width(cursor: &mut BitCursor) -> Result<ValueSpelling, BitFault>
    ensures { found_at (λ scalar. scalar) result cursor.new ≡ field_width cursor.old }
{
    let bit = cursor.at();
    let width = cursor.vbr(5)?;
    if width == 0 {
        Ok(ValueSpelling::Known(0))
    } else if width > u64::from(WIDEST_FIELD) {
        Err(bad_abbreviation(bit))
    } else {
        Ok(ValueSpelling::Field(FieldWidth::new(width as u32)))
    }
}

#[tactic(auto, unfolding(crate::specs::Definition::chunk_width))]
fn chunk_width(cursor: &mut BitCursor) -> Result<ValueSpelling, BitFault>
    ensures { found_at (λ scalar. scalar) result cursor.new ≡ chunk_width cursor.old }
{
    let bit = cursor.at();
    let width = cursor.vbr(5)?;
    if width == 0 {
        Ok(ValueSpelling::Known(0))
    } else if width == 1 || width > u64::from(WIDEST_CHUNK) {
        Err(bad_abbreviation(bit))
    } else {
        Ok(ValueSpelling::Chunks(ChunkWidth::new(width as u32)))
    }
}

#[tactic(auto, unfolding(crate::specs::Definition::encoding))]
fn next_encoding(cursor: &mut BitCursor) -> Result<Encoding, BitFault>
    ensures { found_at (λ encoding. encoding) result cursor.new ≡ encoding cursor.old }
{
    let bit = cursor.at();
    match cursor.fixed(3)? {
        1 => Ok(Encoding::AsField),
        2 => Ok(Encoding::AsChunks),
        3 => Ok(Encoding::AsArray),
        4 => Ok(Encoding::AsLetter),
        5 => Ok(Encoding::AsBlob),
        _ => Err(bad_abbreviation(bit)),
    }
}

/// One value by its encoding, which stands at this bit. An array and a blob are none.
#[tactic(auto, unfolding(crate::specs::Definition::scalar_by))]
fn scalar_by(
    cursor: &mut BitCursor,
    encoding: Encoding,
    bit: u64,
) -> Result<ValueSpelling, BitFault>
    ensures { found_at (λ scalar. scalar) result cursor.new ≡ scalar_by encoding bit cursor.old }
{
    match encoding {
        Encoding::AsField => field_width(cursor),
        Encoding::AsChunks => chunk_width(cursor),
        Encoding::AsLetter => Ok(ValueSpelling::Letter),
        Encoding::AsArray | Encoding::AsBlob => Err(bad_abbreviation(bit)),
    }
}

#[tactic(auto, unfolding(crate::specs::Definition::literal))]
fn literal(cursor: &mut BitCursor) -> Result<ValueSpelling, BitFault>
    ensures { found_at (λ scalar. scalar) result cursor.new ≡ literal cursor.old }
{
    Ok(ValueSpelling::Known(cursor.vbr(8)?))
}

/// The first operand, which spells the code.
#[tactic(auto, unfolding(crate::specs::Definition::first_operand))]
fn first_operand(cursor: &mut BitCursor) -> Result<ValueSpelling, BitFault>
    ensures { found_at (λ scalar. scalar) result cursor.new ≡ first_operand cursor.old }
{
    if cursor.fixed(1)? == 1 {
        return literal(cursor);
    }
    let bit = cursor.at();
    let encoding = next_encoding(cursor)?;
    scalar_by(cursor, encoding, bit)
}

/// An array's element, which spells at least one bit.
#[tactic(auto, unfolding(crate::specs::Definition::element))]
fn element(cursor: &mut BitCursor) -> Result<ValueSpelling, BitFault>
    ensures { found_at (λ scalar. scalar) result cursor.new ≡ element cursor.old }
{
    let flag_bit = cursor.at();
    if cursor.fixed(1)? == 1 {
        return Err(bad_abbreviation(flag_bit));
    }
    let encoding_bit = cursor.at();
    let encoding = next_encoding(cursor)?;
    let width_bit = cursor.at();
    match scalar_by(cursor, encoding, encoding_bit)? {
        ValueSpelling::Known(_) => Err(bad_abbreviation(width_bit)),
        ValueSpelling::Field(width) => Ok(ValueSpelling::Field(width)),
        ValueSpelling::Chunks(width) => Ok(ValueSpelling::Chunks(width)),
        ValueSpelling::Letter => Ok(ValueSpelling::Letter),
    }
}

/// A later operand by its encoding, which stands at this bit. With it so many operands are left.
#[tactic(auto, unfolding(crate::specs::Definition::part_by))]
fn part_by(
    cursor: &mut BitCursor,
    encoding: Encoding,
    left: u64,
    bit: u64,
) -> Result<DefinitionPart, BitFault>
    ensures { found_at (λ part. part) result cursor.new ≡ part_by encoding left bit cursor.old }
{
    match encoding {
        Encoding::AsArray if left == 2 => Ok(DefinitionPart::End(Tail::Elements(element(cursor)?))),
        Encoding::AsBlob if left == 1 => Ok(DefinitionPart::End(Tail::Bytes)),
        Encoding::AsArray | Encoding::AsBlob => Err(bad_abbreviation(bit)),
        Encoding::AsField | Encoding::AsChunks | Encoding::AsLetter => {
            Ok(DefinitionPart::Value(scalar_by(cursor, encoding, bit)?))
        }
    }
}

/// A later operand, where so many are left with it.
#[tactic(auto, unfolding(crate::specs::Definition::part))]
fn next_part(cursor: &mut BitCursor, left: u64) -> Result<DefinitionPart, BitFault>
    ensures { found_at (λ part. part) result cursor.new ≡ part left cursor.old }
{
    if cursor.fixed(1)? == 1 {
        return Ok(DefinitionPart::Value(literal(cursor)?));
    }
    let bit = cursor.at();
    let encoding = next_encoding(cursor)?;
    part_by(cursor, encoding, left, bit)
}

/// So many operands, which are added to those that are there.
fn parts(
    cursor: &mut BitCursor,
    operands: &mut Vec<ValueSpelling>,
    count: u64,
) -> Result<Tail, StreamFault>
    ensures { Ran (λ tail. (operands.new.items, tail)) cursor.new result (parts count operands.old.items cursor.old) }
{
    let mut left = count;
    while left > 0 {
        match next_part(cursor, left)? {
            DefinitionPart::Value(scalar) => operands.push(scalar)?,
            DefinitionPart::End(tail) => return Ok(tail),
        }
        left -= 1;
    }
    Ok(Tail::NoTail)
}

/// The definition in front.
#[tactic(auto, unfolding(crate::specs::Definition::defined_abbreviation))]
pub fn defined_abbreviation(
    cursor: &mut BitCursor,
    alloc: Global,
) -> Result<AdmittedAbbreviation, StreamFault>
    ensures { Ran (λ abbreviation. abbreviation) cursor.new result (defined_abbreviation cursor.old) }
{
    let bit = cursor.at();
    let count = cursor.vbr(5)?;
    if count == 0 || count > MOST_OPERANDS as u64 {
        return Err(bad_abbreviation(bit).into());
    }
    let code = first_operand(cursor)?;
    let mut operands = Vec::new(alloc);
    let tail = parts(cursor, &mut operands, count - 1)?;
    Ok(AdmittedAbbreviation {
        code,
        operands,
        tail,
    })
}
