//! From one place of a judged stream to the next.
ghost use Rattle.std.specs.Prelude.{◌≡◌, ℕ, ◌&&◌, List, [], Some, Ok, false, IfOk, nat_le};
ghost use Rattle.bit_stream.specs.Bits.Reading.{fixed};
ghost use Rattle.bit_stream.specs.Abbreviation.{is_blob};
ghost use Rattle.bit_stream.specs.Entry.{number_of, id_at, defined_at};
ghost use Rattle.bit_tree.specs.Pieces.{Piece};
ghost use Rattle.bit_dump.specs.Walk.Left.{Ahead, IsPlace, Steps};
ghost use Rattle.bit_dump.specs.Walk.Passing.{pass_item, IsBy};
ghost use Rattle.bit_dump.specs.Walk.Values.{operands_at, left_by, Leaves, IsRead, list_of};
ghost use Rattle.bit_dump.specs.Walk.Walker.{IsBare};
ghost use Rattle.bit_dump.specs.declared.walk.event.Event.TheVariants.{Begun, Held};
ghost use Rattle.bit_dump.specs.declared.walk.values.OperandStage.TheVariants.{Over};

use crate::walk::event::{BlockHead, Event, RecordHead};
use crate::walk::item::{WalkItem, pass_item};
use crate::walk::scope::WalkScope;
use crate::walk::starts::Kept;
use crate::walk::values::{OperandStage, begin};
use bit_stream::bits::BitCursor;
use bit_stream::{AdmittedAbbreviation, ChunkWidth, Entry, StreamFault};
use std::alloc::{AllocError, Global};

/// What was passed: the event, and of a record where its operands stand, and its blob.
#[derive(Drop)]
pub struct Arrival<'b> {
    pub event: Option<Event>,
    pub inner: BitCursor<'b>,
    pub stage: OperandStage,
    pub has_blob: bool,
    pub blob: &'b [u8],
}

/// What is no record.
fn plain<'b>(event: Option<Event>, inner: BitCursor<'b>) -> Arrival<'b>
    ensures event { result.event ≡ event }
    ensures stage { result.stage ≡ Over }
    ensures has_blob { result.has_blob ≡ false }
    ensures blob { result.blob.now ≡ [] }
{
    Arrival {
        event,
        inner,
        stage: OperandStage::Over,
        has_blob: false,
        blob: &[],
    }
}

/// A record that stands at a place and is not refused.
fn held<'b>(
    place: BitCursor<'b>,
    width: ChunkWidth,
    abbreviation: &AdmittedAbbreviation,
    code: u32,
    blob: &'b [u8],
) -> Arrival<'b>
    requires { IsRead (operands_at width abbreviation.now place) }
    ensures event { result.event ≡ Some (Held (record { id = number_of (fixed width place.entry); code = code })) }
    ensures left { (ns : List ℕ) → Leaves (operands_at width abbreviation.now place.entry) ns → Leaves (left_by result.stage abbreviation.now result.inner) ns }
    ensures has_blob { result.has_blob ≡ (nat_le 4 (number_of (fixed width place.entry)) && is_blob abbreviation.now.tail) }
    ensures blob { result.blob.now ≡ blob.now }
{
    let mut inner = place;
    let start = begin(&mut inner, width, abbreviation);
    Arrival {
        event: Some(Event::Held(RecordHead { id: start.id, code })),
        inner,
        stage: start.stage,
        has_blob: start.id >= 4 && abbreviation.tail.is_blob(),
        blob,
    }
}

/// Passes what stands in front, which is not refused.
fn pass_judged<'b>(
    cursor: &mut BitCursor<'b>,
    scope: &mut WalkScope<'b>,
    kept: &mut Kept,
    alloc: Global,
) -> Result<WalkItem<'b>, AllocError>
    requires { IsPlace scope.old cursor.old kept.old.start kept.old.abbreviation }
    ensures read { IfOk result (λ item. pass_item scope.old.scope cursor.old ≡ Ok (record { entry = item.entry; scope = scope.new.scope; operands = []; blob = item.blob.now }, cursor.new)) }
    ensures by { IfOk result (λ item. IsBy item.entry kept.new.abbreviation (defined_at scope.old.scope cursor.old) cursor.new scope.old.scope (id_at scope.old.scope cursor.old)) }
    ensures place { IfOk result (λ _. IsPlace scope.new cursor.new kept.new.start kept.new.abbreviation) }
{
    match pass_item(cursor, scope, kept, alloc) {
        Ok(item) => Ok(item),
        Err(StreamFault::Memory) => Err(AllocError),
        Err(StreamFault::Bit(_)) => unreachable!(),
    }
}

/// Goes past what stands in front.
#[inline(never)]
pub fn advance<'b>(
    cursor: &mut BitCursor<'b>,
    scope: &mut WalkScope<'b>,
    kept: &mut Kept,
    alloc: Global,
) -> Result<Arrival<'b>, AllocError>
    requires { IsPlace scope.old cursor.old kept.old.start kept.old.abbreviation }
    ensures place { IfOk result (λ _. IsPlace scope.new cursor.new kept.new.start kept.new.abbreviation) }
    ensures read { IfOk result (λ a. IsRead (left_by a.stage kept.new.abbreviation a.inner)) }
    ensures bare { IfOk result (λ a. IsBare a.event (record { spent = false; left = []; operands = list_of (left_by a.stage kept.new.abbreviation a.inner); has_blob = a.has_blob; blob = a.blob.now; abbreviation = kept.new.abbreviation })) }
    ensures gave { IfOk result (λ a. (ps : List Piece) → Ahead scope.old.scope cursor.old ps → Steps ps a.event (record { spent = false; left = []; operands = list_of (left_by a.stage kept.new.abbreviation a.inner); has_blob = a.has_blob; blob = a.blob.now; abbreviation = kept.new.abbreviation }) scope.new.scope cursor.new) }
{
    let place = cursor.copy();
    let width = scope.width();
    let next_id = scope.in_force() as u64 + 4;
    let item = pass_judged(cursor, scope, kept, alloc)?;
    match item.entry {
        None => Ok(plain(Some(Event::Defined(next_id)), place)),
        Some(entry) => match entry {
            Entry::Block(id) => Ok(plain(Some(block(id, scope)), place)),
            Entry::EndBlock => Ok(plain(Some(Event::Ended), place)),
            Entry::End => Ok(plain(None, place)),
            Entry::Record(code) => Ok(held(
                place,
                width,
                kept.abbreviation.admitted(),
                code,
                item.blob,
            )),
        },
    }
}

/// A block that was entered.
fn block(id: u32, scope: &WalkScope) -> Event
    ensures { result ≡ Begun (record { id = id; width = scope.now.scope.block.width; words = scope.now.scope.block.words }) }
{
    Event::Begun(BlockHead {
        id,
        width: scope.width().bits(),
        words: scope.words(),
    })
}
