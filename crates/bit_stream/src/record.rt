//! The values of a record (LLVM Bitcode File Format, "Data Records").
ghost use Rattle.std.specs.Prelude.{◌≡◌, ℕ, ◌<◌, ◌^◌, [], ◌&&◌, ◌==◌, slice_index, false, IfOk};
ghost use Rattle.bit_stream.specs.Bits.Cursor.{found_at};
ghost use Rattle.bit_stream.specs.Abbreviation.{is_blob};
ghost use Rattle.bit_stream.specs.Answers.{Ran};
ghost use Rattle.bit_stream.specs.Record.{letters, value_by, code_by, operand, elements, each, counted, tail_by, ReadRecord, names_block, unabbreviated, abbreviated};
ghost use Rattle.bit_stream.specs.declared.abbreviation.ValueSpelling.TheVariants.{Chunks};

use crate::StreamFault;
use crate::abbreviation::{AdmittedAbbreviation, ChunkWidth, Tail, ValueSpelling};
use crate::bits::{BitCursor, BitFault};
use crate::fault::bad_abbreviation;
use crate::item::ID_LIMIT;

/// The 64 characters of names, in the order of their numbers.
const LETTERS: [u8; 64] = *b"abcdefghijklmnopqrstuvwxyzABCDEFGHIJKLMNOPQRSTUVWXYZ0123456789._";

/// A record but for its operands, which are held apart.
///
/// ```
/// RecordOpening { code: 1, blob: &[], has_blob: false } // of a record of that code, by no abbreviation that ends in a blob
/// ```
#[derive(Drop)]
pub struct RecordOpening<'b> {
    pub code: u32,
    pub blob: &'b [u8],
    /// Whether it ended in a blob, which may be empty.
    pub has_blob: bool,
}

/// The character of one of 64 numbers.
fn letter(number: u64) -> u64
    requires { number < 64 }
    ensures { result ≡ slice_index letters number }
{
    u64::from(LETTERS[number as usize])
}

/// One value.
#[tactic(auto, unfolding(crate::specs::Record::value_by))]
#[inline(always)]
pub fn value_by(cursor: &mut BitCursor, scalar: ValueSpelling) -> Result<u64, BitFault>
    ensures { found_at (λ number. number) result cursor.new ≡ value_by scalar cursor.old }
{
    match scalar {
        ValueSpelling::Known(number) => Ok(number),
        ValueSpelling::Field(width) => cursor.fixed(width.bits()),
        ValueSpelling::Chunks(width) => cursor.vbr(width.bits()),
        ValueSpelling::Letter => Ok(letter(cursor.fixed(6)?)),
    }
}

/// The code of a record.
#[tactic(auto, unfolding(crate::specs::Record::code_by))]
pub fn code_by(cursor: &mut BitCursor, scalar: ValueSpelling) -> Result<u32, BitFault>
    ensures { found_at (λ code. code) result cursor.new ≡ code_by scalar cursor.old }
{
    let bit = cursor.at();
    let number = value_by(cursor, scalar)?;
    if number >= ID_LIMIT {
        return Err(bad_abbreviation(bit));
    }
    Ok(number as u32)
}

/// One more operand. Where the record names a block, the first operand is its id.
#[tactic(auto, unfolding(crate::specs::Record::operand))]
fn add_operand(
    cursor: &mut BitCursor,
    operands: &mut Vec<u64>,
    scalar: ValueSpelling,
    names_block: bool,
) -> Result<(), StreamFault>
    ensures { Ran (λ _. operands.new.items) cursor.new result (operand names_block operands.old.items scalar cursor.old) }
{
    let bit = cursor.at();
    let number = value_by(cursor, scalar)?;
    if names_block && operands.is_empty() && number >= ID_LIMIT {
        return Err(bad_abbreviation(bit).into());
    }
    operands.push(number)?;
    Ok(())
}

/// So many operands of one spelling. Room is taken as they come, whatever the count says.
fn add_elements(
    cursor: &mut BitCursor,
    operands: &mut Vec<u64>,
    scalar: &ValueSpelling,
    count: u64,
    names_block: bool,
) -> Result<(), StreamFault>
    ensures { Ran (λ _. operands.new.items) cursor.new result (elements names_block scalar.now count operands.old.items cursor.old) }
{
    for _ in 0..count {
        add_operand(cursor, operands, *scalar, names_block)?;
    }
    Ok(())
}

/// Operands of these spellings.
fn add_each(
    cursor: &mut BitCursor,
    operands: &mut Vec<u64>,
    scalars: &[ValueSpelling],
    names_block: bool,
) -> Result<(), StreamFault>
    ensures { Ran (λ _. operands.new.items) cursor.new result (each names_block scalars.now operands.old.items cursor.old) }
{
    for scalar in scalars {
        add_operand(cursor, operands, *scalar, names_block)?;
    }
    Ok(())
}

/// A count of operands and so many of them.
#[tactic(auto, unfolding(crate::specs::Record::counted))]
fn add_counted(
    cursor: &mut BitCursor,
    operands: &mut Vec<u64>,
    scalar: ValueSpelling,
    names_block: bool,
) -> Result<(), StreamFault>
    ensures { Ran (λ _. operands.new.items) cursor.new result (counted names_block scalar operands.old.items cursor.old) }
{
    let count = cursor.vbr(6)?;
    add_elements(cursor, operands, &scalar, count, names_block)
}

/// The operands that the end of an abbreviation gives, and the blob.
#[tactic(auto, unfolding(crate::specs::Record::tail_by))]
fn add_tail<'b>(
    cursor: &mut BitCursor<'b>,
    operands: &mut Vec<u64>,
    tail: Tail,
    names_block: bool,
) -> Result<&'b [u8], StreamFault>
    ensures { Ran (λ blob. (operands.new.items, blob.now)) cursor.new result (tail_by names_block tail operands.old.items cursor.old) }
{
    match tail {
        Tail::NoTail => Ok(&[]),
        Tail::Elements(scalar) => {
            add_counted(cursor, operands, scalar, names_block)?;
            Ok(&[])
        }
        Tail::Bytes => Ok(cursor.blob()?),
    }
}

/// A record without an abbreviation. Its operands are added to a list that is empty.
#[tactic(auto, unfolding(crate::specs::Record::unabbreviated))]
pub fn unabbreviated<'b>(
    cursor: &mut BitCursor<'b>,
    operands: &mut Vec<u64>,
    in_blockinfo: bool,
) -> Result<RecordOpening<'b>, StreamFault>
    requires { operands.old.items ≡ [] }
    ensures read { Ran (λ head. record { code = head.code; operands = operands.new.items; blob = head.blob.now }) cursor.new result (unabbreviated in_blockinfo cursor.old) }
    ensures no_blob { IfOk result (λ head. head.has_blob ≡ false) }
{
    let spelling = ValueSpelling::Chunks(ChunkWidth::new(6));
    let code = code_by(cursor, spelling)?;
    add_counted(cursor, operands, spelling, in_blockinfo && code == 1)?;
    Ok(RecordOpening {
        code,
        blob: &[],
        has_blob: false,
    })
}

/// A record by an abbreviation. Its operands are added to a list that is empty.
#[tactic(auto, unfolding(crate::specs::Record::abbreviated))]
pub fn abbreviated<'b>(
    cursor: &mut BitCursor<'b>,
    operands: &mut Vec<u64>,
    abbreviation: &AdmittedAbbreviation,
    in_blockinfo: bool,
) -> Result<RecordOpening<'b>, StreamFault>
    requires { operands.old.items ≡ [] }
    ensures read { Ran (λ head. record { code = head.code; operands = operands.new.items; blob = head.blob.now }) cursor.new result (abbreviated in_blockinfo abbreviation.now cursor.old) }
    ensures has_blob { IfOk result (λ head. head.has_blob ≡ is_blob abbreviation.now.tail) }
{
    let code = code_by(cursor, abbreviation.code)?;
    let names_block = in_blockinfo && code == 1;
    add_each(cursor, operands, &abbreviation.operands, names_block)?;
    let blob = add_tail(cursor, operands, abbreviation.tail, names_block)?;
    Ok(RecordOpening {
        code,
        blob,
        has_blob: abbreviation.tail.is_blob(),
    })
}
