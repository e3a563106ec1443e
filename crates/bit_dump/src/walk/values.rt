//! The operands of a record that was judged, one after another.
ghost use Rattle.std.specs.Prelude.{◌≡◌, ℕ, ◌<◌, Some, Ok, [], List};
ghost use Rattle.bit_stream.specs.Bits.Cursor.{Cursor};
ghost use Rattle.bit_stream.specs.Bits.Reading.{fixed, vbr};
ghost use Rattle.bit_stream.specs.Record.{value_by, code_by};
ghost use Rattle.bit_stream.specs.Entry.{number_of};
ghost use Rattle.bit_stream.specs.declared.abbreviation.ValueSpelling.TheVariants.{Chunks};
ghost use Rattle.bit_stream.specs.declared.item.TheConstants.{ID_LIMIT};
ghost use Rattle.bit_dump.specs.declared.walk.values.OperandStage.TheVariants.{Fields};
ghost use Rattle.bit_dump.specs.Walk.Values.{repeated, listed, left_by, operands_at, Leaves, IsRead, Gave};

use bit_stream::bits::BitCursor;
use bit_stream::{AdmittedAbbreviation, ChunkWidth, Tail, ValueSpelling, code_by, value_by};

/// Which operands of a record are left.
#[derive(Clone, Copy)]
pub enum OperandStage {
    /// Those of its abbreviation from this one on, and those that its end gives.
    Fields(usize),
    /// So many of one spelling.
    Repeats(ValueSpelling, u64),
    /// None.
    Over,
}

/// A value that is not refused.
#[inline(always)]
pub fn value(cursor: &mut BitCursor, scalar: ValueSpelling) -> u64
    requires { (n : ℕ) × (d : Cursor) × (value_by scalar cursor.old ≡ Ok (n, d)) }
    ensures { value_by scalar cursor.old ≡ Ok (result, cursor.new) }
{
    match value_by(cursor, scalar) {
        Ok(number) => number,
        Err(_) => unreachable!(),
    }
}

/// A count that is not refused.
fn count(cursor: &mut BitCursor) -> u64
    requires { (n : ℕ) × (d : Cursor) × (vbr 6 cursor.old ≡ Ok (n, d)) }
    ensures { vbr 6 cursor.old ≡ Ok (result, cursor.new) }
{
    match cursor.vbr(6) {
        Ok(number) => number,
        Err(_) => unreachable!(),
    }
}

/// The next of so many values of one spelling.
#[inline(always)]
fn next_repeated(
    cursor: &mut BitCursor,
    stage: &mut OperandStage,
    scalar: &ValueSpelling,
    left: u64,
    abbreviation: &AdmittedAbbreviation,
) -> Option<u64>
    requires { IsRead (repeated scalar.now left cursor.old) }
    ensures { (ns : List ℕ) → Leaves (repeated scalar.now left cursor.old) ns → Gave ns result (left_by stage.new abbreviation.now cursor.new) }
{
    if left == 0 {
        *stage = OperandStage::Over;
        return None;
    }
    *stage = OperandStage::Repeats(*scalar, left - 1);
    Some(value(cursor, *scalar))
}

/// The next value behind those that an abbreviation spells one by one.
fn next_of_tail(
    cursor: &mut BitCursor,
    stage: &mut OperandStage,
    tail: Tail,
    abbreviation: &AdmittedAbbreviation,
) -> Option<u64>
    requires { IsRead (listed [] tail cursor.old) }
    ensures { (ns : List ℕ) → Leaves (listed [] tail cursor.old) ns → Gave ns result (left_by stage.new abbreviation.now cursor.new) }
{
    match tail {
        Tail::NoTail => {
            *stage = OperandStage::Over;
            None
        }
        Tail::Bytes => {
            *stage = OperandStage::Over;
            None
        }
        Tail::Elements(scalar) => {
            let left = count(cursor);
            next_repeated(cursor, stage, &scalar, left, abbreviation)
        }
    }
}

/// The next of the values that an abbreviation spells one by one, from this one on.
fn next_field(
    cursor: &mut BitCursor,
    stage: &mut OperandStage,
    index: usize,
    abbreviation: &AdmittedAbbreviation,
) -> Option<u64>
    requires { IsRead (left_by (Fields index) abbreviation.now cursor.old) }
    ensures { (ns : List ℕ) → Leaves (left_by (Fields index) abbreviation.now cursor.old) ns → Gave ns result (left_by stage.new abbreviation.now cursor.new) }
{
    match abbreviation.operands.as_slice().get(index) {
        Some(scalar) => {
            *stage = OperandStage::Fields(index + 1);
            Some(value(cursor, *scalar))
        }
        None => next_of_tail(cursor, stage, abbreviation.tail, abbreviation),
    }
}

/// The next operand of a record, none of whose operands is refused.
#[inline(never)]
pub fn next_value(
    cursor: &mut BitCursor,
    stage: &mut OperandStage,
    abbreviation: &AdmittedAbbreviation,
) -> Option<u64>
    requires { IsRead (left_by stage.old abbreviation.now cursor.old) }
    ensures { (ns : List ℕ) → Leaves (left_by stage.old abbreviation.now cursor.old) ns → Gave ns result (left_by stage.new abbreviation.now cursor.new) }
{
    match *stage {
        OperandStage::Fields(index) => next_field(cursor, stage, index, abbreviation),
        OperandStage::Repeats(scalar, left) => next_repeated(
            cursor,
            stage,
            &scalar,
            left,
            abbreviation,
        ),
        OperandStage::Over => None,
    }
}

/// A record that was begun: its abbreviation id, and which of its operands are left.
#[derive(Clone, Copy)]
pub struct Start {
    pub id: u32,
    pub stage: OperandStage,
}

/// A field that is not refused.
#[inline(always)]
fn field(cursor: &mut BitCursor, width: ChunkWidth) -> u64
    requires { (n : ℕ) × (d : Cursor) × (fixed width cursor.old ≡ Ok (n, d)) }
    ensures read { fixed width cursor.old ≡ Ok (result, cursor.new) }
    ensures small { result < ID_LIMIT }
{
    match cursor.fixed(width.bits()) {
        Ok(number) => number,
        Err(_) => unreachable!(),
    }
}

/// Goes past a code that is not refused.
#[inline(always)]
fn pass_code(cursor: &mut BitCursor, scalar: ValueSpelling)
    requires { (n : ℕ) × (d : Cursor) × (code_by scalar cursor.old ≡ Ok (n, d)) }
    ensures { (n : ℕ) × (code_by scalar cursor.old ≡ Ok (n, cursor.new)) }
{
    match code_by(cursor, scalar) {
        Ok(_) => {}
        Err(_) => unreachable!(),
    }
}

/// How a record without an abbreviation spells its values.
pub fn plain_spelling() -> ValueSpelling
    ensures { result ≡ Chunks 6 }
{
    ValueSpelling::Chunks(ChunkWidth::new(6))
}

/// Goes past the abbreviation id and the code of a record in front, which is not refused. It is by this abbreviation
/// where its id is not 3.
pub fn begin(
    cursor: &mut BitCursor,
    width: ChunkWidth,
    abbreviation: &AdmittedAbbreviation,
) -> Start
    requires { IsRead (operands_at width abbreviation.now cursor.old) }
    ensures id { result.id ≡ number_of (fixed width cursor.old) }
    ensures left { (ns : List ℕ) → Leaves (operands_at width abbreviation.now cursor.old) ns → Leaves (left_by result.stage abbreviation.now cursor.new) ns }
{
    let id = field(cursor, width) as u32;
    if id == 3 {
        pass_code(cursor, plain_spelling());
        let left = count(cursor);
        return Start {
            id,
            stage: OperandStage::Repeats(plain_spelling(), left),
        };
    }
    pass_code(cursor, abbreviation.code);
    Start {
        id,
        stage: OperandStage::Fields(0),
    }
}
