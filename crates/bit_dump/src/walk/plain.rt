//! A record without an abbreviation, begun where it stands: of its operands none is looked at before it is taken.
ghost use Rattle.std.specs.Prelude.{◌≡◌, [], Some, Ok, false, IfSome};
ghost use Rattle.bit_stream.specs.Bits.Cursor.{found_at};
ghost use Rattle.bit_stream.specs.Record.{code_by};
ghost use Rattle.bit_stream.specs.Entry.{is_top, is_blockinfo};
ghost use Rattle.bit_stream.specs.declared.abbreviation.ValueSpelling.TheVariants.{Chunks};
ghost use Rattle.bit_stream.specs.declared.entry.Entry.TheVariants.{Record};
ghost use Rattle.bit_dump.specs.Walk.Passing.{pass_item};
ghost use Rattle.bit_dump.specs.Walk.Plain.{head_at, place_past, place_of, IsWaiting};
ghost use Rattle.bit_dump.specs.Walk.Values.{repeated, IsRead};

use crate::walk::passing::pass_plain;
use crate::walk::scope::WalkScope;
use bit_stream::bits::{BitCursor, BitFault};
use bit_stream::{ChunkWidth, ID_LIMIT, bad_abbreviation};

/// The code of a record without an abbreviation, and how many operands it has.
#[derive(Clone, Copy)]
pub struct PlainHead {
    pub code: u32,
    pub count: u64,
}

/// A record without an abbreviation, and where its operands stand.
#[derive(Drop)]
pub struct PlainRecord<'b> {
    pub head: PlainHead,
    pub inner: BitCursor<'b>,
}

/// The code of a record without an abbreviation.
#[tactic(auto, unfolding(bit_stream::specs::Record::code_by, bit_stream::specs::Record::value_by))]
#[inline(always)]
fn plain_code(cursor: &mut BitCursor) -> Result<u32, BitFault>
    ensures { found_at (λ code. code) result cursor.new ≡ code_by (Chunks 6) cursor.old }
{
    let bit = cursor.at();
    let number = cursor.vbr(6)?;
    if number >= ID_LIMIT {
        return Err(bad_abbreviation(bit));
    }
    Ok(number as u32)
}

/// The head of a record without an abbreviation in front, or none where another id stands there.
#[tactic(auto, unfolding(crate::specs::Walk::Plain::head_at))]
#[inline(always)]
fn head_at(cursor: &mut BitCursor, width: ChunkWidth) -> Result<Option<PlainHead>, BitFault>
    ensures { found_at (λ head. head) result cursor.new ≡ head_at width cursor.old }
{
    let id = cursor.fixed(width.bits())?;
    if id != 3 {
        return Ok(None);
    }
    let code = plain_code(cursor)?;
    let count = cursor.vbr(6)?;
    Ok(Some(PlainHead { code, count }))
}

/// A record without an abbreviation that stands in front, in a block that is not BLOCKINFO. None says nothing: the longer way finds
/// what is there then.
#[inline(always)]
pub fn plain_in_front<'b>(cursor: &BitCursor<'b>, scope: &WalkScope<'b>) -> Option<PlainRecord<'b>>
    ensures within { IfSome result (λ _. is_top scope.now.scope ≡ false) }
    ensures other { IfSome result (λ _. is_blockinfo scope.now.scope ≡ false) }
    ensures head { IfSome result (λ plain. head_at scope.now.scope.block.width cursor.now ≡ Ok (Some plain.head, plain.inner)) }
{
    if scope.depth() == 0 {
        return None;
    }
    if scope.is_blockinfo() {
        return None;
    }
    let mut inner = cursor.copy();
    let Ok(found) = head_at(&mut inner, scope.width()) else {
        return None;
    };
    let Some(head) = found else {
        return None;
    };
    Some(PlainRecord { head, inner })
}

/// One that was passed over: its code, and the place behind it.
#[derive(Drop)]
pub struct PlainPassed<'b> {
    pub code: u32,
    pub behind: BitCursor<'b>,
}

/// A record without an abbreviation that stands in front, in a block that is not BLOCKINFO, passed over; nothing of it is refused. None
/// says nothing: the longer way finds what is there then.
#[inline(always)]
pub fn plain_passed<'b>(cursor: &BitCursor<'b>, scope: &WalkScope<'b>) -> Option<PlainPassed<'b>>
    ensures { IfSome result (λ passed. pass_item scope.now.scope cursor.now ≡ Ok (record { entry = Some (Record passed.code); scope = scope.now.scope; operands = []; blob = [] }, passed.behind)) }
{
    let Some(plain) = plain_in_front(cursor, scope) else {
        return None;
    };
    let PlainRecord { head, inner } = plain;
    let mut place = inner;
    match pass_plain(&mut place, head.count) {
        Ok(()) => Some(PlainPassed {
            code: head.code,
            behind: place,
        }),
        Err(_) => None,
    }
}

/// The place behind so many operands, none of which is refused.
fn behind_operands<'b>(inner: &BitCursor<'b>, count: u64) -> BitCursor<'b>
    requires { IsRead (repeated (Chunks 6) count inner.now) }
    ensures { result ≡ place_past inner.now (repeated (Chunks 6) count inner.now) }
{
    let mut place = inner.copy();
    match pass_plain(&mut place, count) {
        Ok(()) => place,
        Err(_) => unreachable!(),
    }
}

/// The place behind the record that was given last, so many of whose operands wait.
#[inline(always)]
pub fn behind<'b>(
    cursor: &BitCursor<'b>,
    inner: &BitCursor<'b>,
    waiting: Option<u64>,
) -> BitCursor<'b>
    requires { IsWaiting waiting inner.now }
    ensures { result ≡ place_of waiting inner.now cursor.now }
{
    match waiting {
        Some(count) => behind_operands(inner, count),
        None => cursor.copy(),
    }
}
