//! A walker over a judged stream.
ghost use Rattle.std.specs.Prelude.{◌≡◌, ◌≤◌, false, length, IfOk, None};
ghost use Rattle.bit_stream.specs.declared.reader.TheConstants.{LARGEST_STREAM};
ghost use Rattle.bit_tree.specs.Stream.{StreamTree, Stream};
ghost use Rattle.bit_tree.specs.Pieces.{flat};
ghost use Rattle.bit_tree.specs.Read.{IsStream};
ghost use Rattle.bit_dump.specs.Walk.Walker.{Walks, Took, IsBare};

use crate::walk::advance::advance;
use crate::walk::event::{Event, RecordHead};
use crate::walk::plain::{PlainRecord, behind, plain_in_front};
use crate::walk::scope::WalkScope;
use crate::walk::starts::Kept;
use crate::walk::values::{OperandStage, next_value, plain_spelling, value};
use bit_stream::AdmittedAbbreviation;
use bit_stream::bits::BitCursor;
use std::alloc::{AllocError, Global};
use std::marker::Model;

/// A walker over the entries and definitions of a stream that is a tree, in order. After want of memory it is spent: every
/// later call of `next` answers that.
///
/// It holds no list of operands: those of a record are read as they are taken.
#[derive(Drop)]
pub struct Walker<'b> {
    cursor: BitCursor<'b>,
    scope: WalkScope<'b>,
    kept: Kept,
    /// Where the next operand of the record stands that was given last.
    inner: BitCursor<'b>,
    stage: OperandStage,
    has_blob: bool,
    blob: &'b [u8],
    spent: bool,
    /// Of a record without an abbreviation, where one was given last, how many operands were not taken. It is passed with the
    /// next step: until then the cursor is where it was before.
    waiting: Option<u64>,
    alloc: Global,
}

impl<'b> Model for Walker<'b> {
    ghost use Rattle.bit_dump.specs.Walk.Left.{pieces_left, operands_left, IsWalking};
    ghost use Rattle.bit_dump.specs.Walk.Plain.{place_of, found_of};
    ghost use Rattle.bit_dump.specs.Walk.Values.{left_by};
    ghost use Rattle.bit_dump.specs.Walk.Walker.{Walker};

    ghost Value = { Walker };

    ghost view = { λ w. record { spent = w.spent; left = pieces_left w.spent w.scope.scope (place_of w.waiting w.inner w.cursor); operands = operands_left w.spent (found_of w.waiting w.inner (left_by w.stage w.kept.abbreviation w.inner)); has_blob = w.has_blob; blob = w.blob.now; abbreviation = w.kept.abbreviation } };

    ghost invariant = { λ w. IsWalking w.spent w.scope (place_of w.waiting w.inner w.cursor) w.kept.start w.kept.abbreviation (found_of w.waiting w.inner (left_by w.stage w.kept.abbreviation w.inner)) };
}

impl<'b> Walker<'b> {
    /// A walker in front of the whole tree of a stream.
    pub fn new(alloc: Global, bytes: &'b [u8]) -> Walker<'b>
        requires short { length bytes.now ≤ LARGEST_STREAM }
        requires judged { IsStream bytes.now }
        ensures unspent { result.spent ≡ false }
        ensures bare { IsBare None result }
        ensures whole { (tree : StreamTree) → Stream bytes.now tree → result.left ≡ flat tree }
    {
        let cursor = BitCursor::at_bit(bytes, 32);
        let scope = WalkScope::new(alloc, bytes);
        let kept = Kept::nothing(alloc);
        Walker {
            cursor,
            scope,
            kept,
            inner: BitCursor::new(bytes),
            stage: OperandStage::Over,
            has_blob: false,
            blob: &[],
            spent: false,
            waiting: None,
            alloc,
        }
    }

    /// The next entry or definition, or none at the end of the stream. Operands of the record before that were not taken
    /// are passed over.
    #[inline(always)]
    pub fn next(&mut self) -> Result<Option<Event>, AllocError>
        ensures walks { Walks self.old.spent self.old result self.new }
        ensures bare { IfOk result (λ event. IsBare event self.new) }
    {
        if self.spent {
            return Err(AllocError);
        }
        let place = behind(&self.cursor, &self.inner, self.waiting);
        if let Some(plain) = plain_in_front(&place, &self.scope) {
            let PlainRecord { head, inner } = plain;
            self.inner = inner;
            self.waiting = Some(head.count);
            self.has_blob = false;
            self.blob = &[];
            return Ok(Some(Event::Held(RecordHead {
                id: 3,
                code: head.code,
            })));
        }
        self.cursor = place;
        self.waiting = None;
        self.spent = true;
        let arrival = advance(
            &mut self.cursor,
            &mut self.scope,
            &mut self.kept,
            self.alloc,
        )?;
        self.inner = arrival.inner;
        self.stage = arrival.stage;
        self.has_blob = arrival.has_blob;
        self.blob = arrival.blob;
        self.spent = false;
        Ok(arrival.event)
    }

    /// The next operand of the record that was given last, or none behind the last one and where no record was given.
    #[inline(always)]
    pub fn next_operand(&mut self) -> Option<u64>
        ensures { Took self.old result self.new }
    {
        if self.spent {
            return None;
        }
        match self.waiting {
            Some(count) => {
                if count == 0 {
                    return None;
                }
                self.waiting = Some(count - 1);
                Some(value(&mut self.inner, plain_spelling()))
            }
            None => next_value(
                &mut self.inner,
                &mut self.stage,
                self.kept.abbreviation.admitted(),
            ),
        }
    }

    /// Whether the record that was given last ends in a blob, an empty one included.
    pub fn has_blob(&self) -> bool
        ensures { result ≡ self.now.has_blob }
    {
        self.has_blob
    }

    /// The blob of the record that was given last; no bytes where it has none.
    pub fn blob(&self) -> &'b [u8]
        ensures { result.now ≡ self.now.blob }
    {
        self.blob
    }

    /// Behind a definition, the abbreviation that it defines; behind anything else it tells nothing.
    pub fn admitted(&self) -> &AdmittedAbbreviation
        ensures { result.now ≡ self.now.abbreviation }
    {
        self.kept.abbreviation.admitted()
    }
}
