//! The values of a record, passed over: of its operands the first alone is kept.
ghost use Rattle.std.specs.Prelude.{◌≡◌, ℕ, ◌-◌, ◌^◌, ◌&&◌, ◌==◌, None, false, IfSome};
ghost use Rattle.bit_stream.specs.Bits.Cursor.{found_at};
ghost use Rattle.bit_stream.specs.Record.{value_by, code_by, names_block};
ghost use Rattle.bit_dump.specs.Walk.Passing.{with_first, is_none, pass_operand, pass_elements, pass_each, pass_counted, pass_tail, pass_unabbreviated, pass_abbreviated, IsPassed, IsPassedTo};
ghost use Rattle.bit_stream.specs.declared.abbreviation.ValueSpelling.TheVariants.{Chunks};

use crate::walk::spelling::WalkedSpelling;
use crate::walk::values::plain_spelling;
use bit_stream::bits::{BitCursor, BitFault};
use bit_stream::{ChunkWidth, ID_LIMIT, Tail, ValueSpelling, bad_abbreviation, code_by, value_by};

/// A record, but for its operands behind the first.
#[derive(Drop)]
pub struct Passed<'b> {
    pub code: u32,
    pub first: Option<u64>,
    pub blob: &'b [u8],
}

/// Behind the values that an abbreviation spells one by one.
#[derive(Drop)]
struct Rest<'b> {
    first: Option<u64>,
    blob: &'b [u8],
}

/// The first operand, behind one more.
fn with_first(first: Option<u64>, number: u64) -> Option<u64>
    ensures { result ≡ with_first first number }
{
    match first {
        Some(first) => Some(first),
        None => Some(number),
    }
}

/// Whether no operand was passed.
fn is_none(first: Option<u64>) -> bool
    ensures { result ≡ is_none first }
{
    match first {
        Some(_) => false,
        None => true,
    }
}

/// One more operand. Where the record names a block, the first operand is its id.
#[tactic(auto, unfolding(crate::specs::Walk::Passing::pass_operand))]
#[inline(always)]
fn pass_operand(
    cursor: &mut BitCursor,
    scalar: ValueSpelling,
    names_block: bool,
    first: Option<u64>,
) -> Result<Option<u64>, BitFault>
    ensures { found_at (λ first. first) result cursor.new ≡ pass_operand names_block first scalar cursor.old }
{
    let bit = cursor.at();
    let number = value_by(cursor, scalar)?;
    if names_block && is_none(first) && number >= ID_LIMIT {
        return Err(bad_abbreviation(bit));
    }
    Ok(with_first(first, number))
}

/// So many operands of one spelling.
#[inline(always)]
pub fn pass_elements(
    cursor: &mut BitCursor,
    scalar: &ValueSpelling,
    count: u64,
    names_block: bool,
    before: Option<u64>,
) -> Result<Option<u64>, BitFault>
    ensures { found_at (λ first. first) result cursor.new ≡ pass_elements names_block scalar.now count before cursor.old }
{
    let mut first = before;
    for _ in 0..count {
        first = pass_operand(cursor, *scalar, names_block, first)?;
    }
    Ok(first)
}

/// The top bit of each of nine chunks of 6 bits.
const TOPS: u64 = 0x0020_8208_2082_0820;

/// The place behind so many operands of a record without an abbreviation, where they are at most nine, and each has one
/// chunk.
#[inline(always)]
fn behind_short<'b>(cursor: &BitCursor<'b>, count: u64) -> Option<BitCursor<'b>>
    ensures { IfSome result (λ behind. IsPassedTo (pass_elements false (Chunks 6) count None cursor.now) behind) }
{
    if count > 9 {
        return None;
    }
    let mut behind = cursor.copy();
    let Ok(chunks) = behind.fixed(6 * count as u32) else {
        return None;
    };
    if chunks & TOPS == 0 {
        return Some(behind);
    }
    None
}

/// So many operands of a record without an abbreviation, whatever they are.
#[inline(always)]
pub fn pass_plain(cursor: &mut BitCursor, count: u64) -> Result<(), BitFault>
    ensures { IsPassed result cursor.new (pass_elements false (Chunks 6) count None cursor.old) }
{
    if count == 0 {
        return Ok(());
    }
    if let Some(behind) = behind_short(cursor, count) {
        *cursor = behind;
        return Ok(());
    }
    let spelling = plain_spelling();
    pass_elements(cursor, &spelling, count, false, None)?;
    Ok(())
}

/// Operands of these spellings.
fn pass_each(
    cursor: &mut BitCursor,
    scalars: &[ValueSpelling],
    names_block: bool,
) -> Result<Option<u64>, BitFault>
    ensures { found_at (λ first. first) result cursor.new ≡ pass_each names_block scalars.now None cursor.old }
{
    let mut first = None;
    for scalar in scalars {
        first = pass_operand(cursor, *scalar, names_block, first)?;
    }
    Ok(first)
}

/// The operands that an abbreviation spells one by one. Of its literals only the first operand is looked at.
fn pass_fields(
    cursor: &mut BitCursor,
    spelling: &WalkedSpelling,
    names_block: bool,
) -> Result<Option<u64>, BitFault>
    ensures { found_at (λ first. first) result cursor.new ≡ pass_each names_block spelling.now.operands None cursor.old }
{
    pass_each(cursor, spelling.read(), names_block)
}

/// A count of operands and so many of them.
#[tactic(auto, unfolding(crate::specs::Walk::Passing::pass_counted))]
#[inline(always)]
fn pass_counted(
    cursor: &mut BitCursor,
    scalar: ValueSpelling,
    names_block: bool,
    first: Option<u64>,
) -> Result<Option<u64>, BitFault>
    ensures { found_at (λ first. first) result cursor.new ≡ pass_counted names_block scalar first cursor.old }
{
    let count = cursor.vbr(6)?;
    pass_elements(cursor, &scalar, count, names_block, first)
}

/// The operands that the end of an abbreviation gives, and the blob.
#[tactic(auto, unfolding(crate::specs::Walk::Passing::pass_tail))]
fn pass_tail<'b>(
    cursor: &mut BitCursor<'b>,
    tail: Tail,
    names_block: bool,
    first: Option<u64>,
) -> Result<Rest<'b>, BitFault>
    ensures { found_at (λ rest. (rest.first, rest.blob.now)) result cursor.new ≡ pass_tail names_block tail first cursor.old }
{
    match tail {
        Tail::NoTail => Ok(Rest { first, blob: &[] }),
        Tail::Elements(scalar) => {
            let first = pass_counted(cursor, scalar, names_block, first)?;
            Ok(Rest { first, blob: &[] })
        }
        Tail::Bytes => {
            let blob = cursor.blob()?;
            Ok(Rest { first, blob })
        }
    }
}

/// A record without an abbreviation.
#[tactic(auto, unfolding(crate::specs::Walk::Passing::pass_unabbreviated))]
pub fn pass_unabbreviated<'b>(
    cursor: &mut BitCursor<'b>,
    in_blockinfo: bool,
) -> Result<Passed<'b>, BitFault>
    ensures { found_at (λ passed. record { code = passed.code; first = passed.first; blob = passed.blob.now }) result cursor.new ≡ pass_unabbreviated in_blockinfo cursor.old }
{
    let spelling = ValueSpelling::Chunks(ChunkWidth::new(6));
    let code = code_by(cursor, spelling)?;
    let first = pass_counted(cursor, spelling, in_blockinfo && code == 1, None)?;
    Ok(Passed {
        code,
        first,
        blob: &[],
    })
}

/// A record by an abbreviation.
#[tactic(auto, unfolding(crate::specs::Walk::Passing::pass_abbreviated))]
pub fn pass_abbreviated<'b>(
    cursor: &mut BitCursor<'b>,
    spelling: &WalkedSpelling,
    in_blockinfo: bool,
) -> Result<Passed<'b>, BitFault>
    ensures { found_at (λ passed. record { code = passed.code; first = passed.first; blob = passed.blob.now }) result cursor.new ≡ pass_abbreviated in_blockinfo spelling.now cursor.old }
{
    let abbreviation = spelling.admitted();
    let code = code_by(cursor, abbreviation.code)?;
    let names_block = in_blockinfo && code == 1;
    let front = pass_fields(cursor, spelling, names_block)?;
    let rest = pass_tail(cursor, abbreviation.tail, names_block, front)?;
    Ok(Passed {
        code,
        first: rest.first,
        blob: rest.blob,
    })
}
