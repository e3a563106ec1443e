//! A whole body.
ghost use Rattle.std.specs.Prelude.{◌≡◌, ◌∷◌, ◌<◌, ◌^◌, List, length, false, OnOk};
ghost use Rattle.bit_tree.specs.Pieces.{Piece, ended};
ghost use Rattle.record_table.specs.Bodies as bodies;
ghost use Rattle.record_table.specs.Faults.{Records};
ghost use Rattle.record_table.specs.Fields.{Numbering};
ghost use Rattle.record_read.specs.Entries.{IsBefore, IsInBlock};
ghost use Rattle.record_read.specs.Faults.{Answers};
ghost use Rattle.record_read.specs.Fields.{texts_of};
ghost use Rattle.body_read.specs.Ahead.Ahead.{AreCounts};
ghost use Rattle.body_read.specs.Blocks.Begun.{StartsEmpty, due_view};
ghost use Rattle.body_read.specs.Whole.{Closes, IsWhole, KeepsCounts, NumbersOutside, ReadsRecords, is_next};

use crate::blocks::{Begun, BodyDue};
use crate::records::read_record;
use module_arena::Body;
use record_read::{BitcodeFault, NextEntry, Texts, misplaced};
use record_table::BODY_BLOCK;
use type_read::arena::{LocalCounts, ModuleReader};

/// What holds of counts: 32 bits hold them.
fn fit(counts: LocalCounts)
    ensures { counts.blocks < 2 ^ 32 }
{
    let _blocks = counts.blocks;
}

/// Whether a body may end here.
fn may_end(due: BodyDue) -> bool
    ensures { result ≡ is_next (due_view due) }
{
    match due {
        BodyDue::NextBlock => true,
        BodyDue::Parameters | BodyDue::FirstBlock | BodyDue::Line => false,
    }
}

/// The whole body, behind so many records.
fn closed(body: Begun, at: u64) -> Result<Body, BitcodeFault>
    ensures { Closes body at result }
{
    if may_end(body.due) {
        Ok(body.finish())
    } else {
        Err(BitcodeFault::BadRecord {
            block: BODY_BLOCK,
            index: at,
            rule: 5,
        })
    }
}

/// Reads the records of a body of which nothing was read, whose function has so many parameters, and the end of its block. A
/// record that breaks a rule is refused by the least that it breaks.
fn read_records(
    m: &mut ModuleReader<'_>,
    texts: &Texts,
    body: &mut Begun,
    parameters: u32,
) -> Result<(), BitcodeFault>
    requires unspent { m.old.reader.spent ≡ false }
    requires begun { IsInBlock m.old.reader.left }
    requires empty { StartsEmpty body.old }
    ensures unspent { OnOk result (m.new.reader.spent ≡ false) }
    ensures nearer { OnOk result (length m.new.reader.left < length m.old.reader.left) }
    ensures behind { (inside : Records) (others : List Piece) → IsBefore m.old.reader.left inside (ended ∷ others) → OnOk result (m.new.reader.left ≡ others) }
    ensures keeps { OnOk result (KeepsCounts m.old m.new) }
    ensures reads { (inside : Records) (others : List Piece) (k : Numbering) → IsBefore m.old.reader.left inside (ended ∷ others) → NumbersOutside m.old k
        → AreCounts m.old.locals (bodies.labels (texts_of texts.now) k parameters inside)
        → ReadsRecords texts.now k parameters inside m.old result m.new body.new }
{
    'records: loop {
        match m.reader.next()? {
            NextEntry::Record(code) => read_record(m, texts, body, parameters, code)?,
            NextEntry::Block(id) => return Err(misplaced(id, m.reader.at())),
            NextEntry::End => return Ok(()),
        }
    }
}

/// Reads the block of a body that was begun, whose function has so many parameters, and whose counts of values and blocks the
/// module's reader has. The reader stands behind the block then. A record that breaks a rule is refused by the least that it
/// breaks.
pub fn read_body(
    m: &mut ModuleReader<'_>,
    texts: &Texts,
    parameters: u32,
) -> Result<Body, BitcodeFault>
    requires unspent { m.old.reader.spent ≡ false }
    requires begun { IsInBlock m.old.reader.left }
    ensures unspent { OnOk result (m.new.reader.spent ≡ false) }
    // Fewer pieces are left: the reader is behind the block, whatever is counted ahead.
    ensures nearer { OnOk result (length m.new.reader.left < length m.old.reader.left) }
    ensures behind { (inside : Records) (others : List Piece) → IsBefore m.old.reader.left inside (ended ∷ others) → OnOk result (m.new.reader.left ≡ others) }
    ensures keeps { OnOk result (KeepsCounts m.old m.new) }
    ensures answers { (inside : Records) (others : List Piece) (k : Numbering) → IsBefore m.old.reader.left inside (ended ∷ others) → NumbersOutside m.old k
        → AreCounts m.old.locals (bodies.labels (texts_of texts.now) k parameters inside)
        → Answers (IsWhole k parameters m.old m.new) (bodies.body (texts_of texts.now) k parameters m.old.reader.at inside) result }
{
    fit(m.locals);
    let mut body = Begun::new(m.alloc);
    read_records(m, texts, &mut body, parameters)?;
    closed(body, m.reader.at())
}
