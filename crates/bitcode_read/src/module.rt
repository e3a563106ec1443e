//! The block of the module.
ghost use Rattle.std.specs.Prelude.{◌≡◌, ◌∷◌, ◌<◌, ◌≤◌, ℕ, List, true, false, length, Ok, OnOk};
ghost use Rattle.bit_stream.specs.declared.reader.TheConstants.{LARGEST_STREAM};
ghost use Rattle.bit_tree.specs.Pieces.{Piece, ended};
ghost use Rattle.bit_tree.specs.Stream.{StreamTree, Stream};
ghost use Rattle.record_table.specs.Faults.{Records, records as records_of};
ghost use Rattle.record_table.specs.Records as records;
ghost use Rattle.record_read.specs.Entries.{IsBefore};
ghost use Rattle.record_read.specs.Faults.{Answers};
ghost use Rattle.record_read.specs.Fields.{texts_of};
ghost use Rattle.bitcode_read.specs.Head.Ahead.{first_module};
ghost use Rattle.bitcode_read.specs.declared.head.ahead.ModuleAhead as the_ahead;
ghost use Rattle.bitcode_read.specs.Sofar.{AreBytesHeld, GoesOn, HasRoom, IsAmong, IsAtEnd, IsGoing, IsModuleBegun, IsWhole, told_end, told_more};

use crate::blocks::read_block;
use crate::head::ModuleAhead;
use crate::records::read_record;
use crate::sofar::Sofar;
use record_read::order::{expect_whole, next_due};
use record_read::{BitcodeFault, NextEntry, Texts};
use type_read::arena::ModuleReader;

/// True where something was read that is not the end.
fn more(read: Result<(), BitcodeFault>) -> Result<bool, BitcodeFault>
    ensures { result ≡ told_more read }
{
    match read {
        Ok(()) => Ok(true),
        Err(fault) => Err(fault),
    }
}

/// Reads what stands next in the module's block. False at its end, behind which the reader is then.
fn read_entry(
    m: &mut ModuleReader<'_>,
    bytes: &[u8],
    texts: &Texts,
    sofar: &mut Sofar,
    known: &mut ModuleAhead,
) -> Result<bool, BitcodeFault>
    requires unspent { m.old.reader.spent ≡ false }
    requires short { length bytes.now ≤ LARGEST_STREAM }
    requires held { AreBytesHeld texts.now }
    requires room { HasRoom sofar.old }
    requires going { IsAmong bytes.now (texts_of texts.now) m.old sofar.old known.old }
    ensures room { OnOk result (HasRoom sofar.new) }
    ensures unspent { OnOk result (m.new.reader.spent ≡ false) }
    ensures nearer { result ≡ Ok true → length m.new.reader.left < length m.old.reader.left }
    ensures goes { (tree : StreamTree) (others : List Piece) (first : ℕ) → Stream bytes.now tree → IsGoing (texts_of texts.now) (first_module (records_of tree)) others first m.old sofar.old known.old
        → GoesOn (texts_of texts.now) (first_module (records_of tree)) others first result m.new sofar.new known.new }
{
    match m.reader.next()? {
        NextEntry::Record(code) => more(read_record(m, texts, sofar, code)),
        NextEntry::Block(id) => more(read_block(m, bytes, texts, sofar, known, id)),
        NextEntry::End => Ok(false),
    }
}

/// Reads what is left of the module's block, behind which the reader is then.
fn read_entries(
    m: &mut ModuleReader<'_>,
    bytes: &[u8],
    texts: &Texts,
    sofar: &mut Sofar,
    known: &mut ModuleAhead,
) -> Result<(), BitcodeFault>
    requires unspent { m.old.reader.spent ≡ false }
    requires short { length bytes.now ≤ LARGEST_STREAM }
    requires held { AreBytesHeld texts.now }
    requires room { HasRoom sofar.old }
    requires going { IsAmong bytes.now (texts_of texts.now) m.old sofar.old known.old }
    ensures room { OnOk result (HasRoom sofar.new) }
    ensures unspent { OnOk result (m.new.reader.spent ≡ false) }
    ensures goes { (tree : StreamTree) (others : List Piece) (first : ℕ) → Stream bytes.now tree → IsGoing (texts_of texts.now) (first_module (records_of tree)) others first m.old sofar.old known.old
        → GoesOn (texts_of texts.now) (first_module (records_of tree)) others first (told_end result) m.new sofar.new known.new }
{
    'entries: loop {
        let is_more = read_entry(m, bytes, texts, sofar, known)?;
        if !is_more {
            return Ok(());
        }
    }
}

/// What was read, where nothing of the block is missing at its end.
fn whole(m: &ModuleReader<'_>, texts: &Texts, sofar: Sofar) -> Result<Sofar, BitcodeFault>
    requires held { AreBytesHeld texts.now }
    requires room { HasRoom sofar }
    ensures { (all : Records) (others : List Piece) (first : ℕ) (known : the_ahead.ModuleAhead) → IsAtEnd (texts_of texts.now) all others first m.now sofar known
        → Answers (IsWhole m.now others) (records.module_from (records.at_first (texts_of texts.now) first all) all) result }
{
    let is_due = next_due(&sofar.defined, sofar.bodies.len()).is_some();
    expect_whole(sofar.last, is_due, m.reader.at())?;
    Ok(sofar)
}

/// Reads the module's block that was begun, of which that is known ahead. The reader stands behind it then.
pub(crate) fn read_module(
    m: &mut ModuleReader<'_>,
    bytes: &[u8],
    texts: &Texts,
    known: &mut ModuleAhead,
) -> Result<Sofar, BitcodeFault>
    requires unspent { m.old.reader.spent ≡ false }
    requires short { length bytes.now ≤ LARGEST_STREAM }
    requires held { AreBytesHeld texts.now }
    requires begun { IsModuleBegun bytes.now (texts_of texts.now) m.old known.old }
    ensures unspent { OnOk result (m.new.reader.spent ≡ false) }
    ensures answers { (tree : StreamTree) (others : List Piece) → Stream bytes.now tree → IsBefore m.old.reader.left (first_module (records_of tree)) (ended ∷ others)
        → Answers (IsWhole m.new others) (records.module_from (records.at_first (texts_of texts.now) m.old.reader.at (first_module (records_of tree))) (first_module (records_of tree))) result }
{
    let mut sofar = Sofar::new(m.alloc);
    read_entries(m, bytes, texts, &mut sofar, known)?;
    whole(m, texts, sofar)
}
