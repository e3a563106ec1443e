//! The block of the string table.
ghost use Rattle.std.specs.Prelude.{◌≡◌, ◌∷◌, ◌<◌, ℕ, suc, List, false, None, OnOk};
ghost use Rattle.bit_tree.specs.Pieces.{Piece, ended};
ghost use Rattle.record_table.specs.Faults.{Records, a_record, no_more};
ghost use Rattle.record_table.specs.Records as records;
ghost use Rattle.record_table.specs.Walk.{going};
ghost use Rattle.record_read.specs.Entries.{IsBefore, IsInBlock};
ghost use Rattle.record_read.specs.Faults.{Answers};
ghost use Rattle.record_read.specs.Opening.Table.{HasBytes, IsTable, KeepsTable};

use crate::{BitcodeFault, NextEntry, RecordReader, misplaced, read_rest};
use ir_base::Text;
use record_table::{TABLE_BLOCK, TEXT};
use std::alloc::Global;

/// Refuses another record of the table's block: there is one.
fn refuse_more(reader: &mut RecordReader<'_>, alloc: Global, code: u32) -> Result<(), BitcodeFault>
    requires { 0 < reader.old.at }
    ensures { (t : records.ReadTable) (operands : List ℕ) → reader.old.walk ≡ going operands None → reader.old.at ≡ suc t.at
        → Answers (λ done more. ⊥) (records.table_ended t (a_record code operands no_more)) result }
{
    if code != TEXT {
        return Err(BitcodeFault::UnknownRecord {
            block: TABLE_BLOCK,
            code,
        });
    }
    let _bytes = read_rest(reader, alloc)?;
    reader.also(5, false);
    reader.finish(TABLE_BLOCK)
}

/// Reads the one record of the table's block, of that code: its bytes.
fn read_bytes(reader: &mut RecordReader<'_>, alloc: Global, code: u32) -> Result<Text, BitcodeFault>
    requires { 0 < reader.old.at }
    ensures spent { OnOk result (reader.new.spent ≡ reader.old.spent) }
    ensures left { OnOk result (reader.new.left ≡ reader.old.left) }
    ensures at { OnOk result (reader.new.at ≡ reader.old.at) }
    ensures answers { (at : ℕ) (operands : List ℕ) → reader.old.walk ≡ going operands None → reader.old.at ≡ suc at
        → Answers (HasBytes (suc at)) (records.table at (a_record code operands no_more)) result }
{
    if code != TEXT {
        return Err(BitcodeFault::UnknownRecord {
            block: TABLE_BLOCK,
            code,
        });
    }
    let bytes = read_rest(reader, alloc)?;
    reader.finish(TABLE_BLOCK)?;
    match bytes {
        Some(bytes) => Ok(bytes),
        None => unreachable!(),
    }
}

/// Refuses what stands behind the one record of the table's block. The reader stands behind the block then.
fn end_of_table(reader: &mut RecordReader<'_>, alloc: Global) -> Result<(), BitcodeFault>
    requires unspent { reader.old.spent ≡ false }
    requires begun { IsInBlock reader.old.left }
    ensures unspent { OnOk result (reader.new.spent ≡ false) }
    ensures answers { (t : records.ReadTable) (rest : Records) (others : List Piece) → IsBefore reader.old.left rest (ended ∷ others) → reader.old.at ≡ t.at
        → Answers (λ done kept. KeepsTable reader.new others t kept) (records.table_ended t rest) result }
{
    match reader.next()? {
        NextEntry::Record(code) => refuse_more(reader, alloc, code),
        NextEntry::Block(id) => Err(misplaced(id, reader.at())),
        NextEntry::End => Ok(()),
    }
}

/// Reads the block of a table that was begun: the bytes of its one record. The reader stands behind it then. What else stands
/// in the block is refused by the least rule that it breaks.
pub fn read_table(reader: &mut RecordReader<'_>, alloc: Global) -> Result<Text, BitcodeFault>
    requires unspent { reader.old.spent ≡ false }
    requires begun { IsInBlock reader.old.left }
    ensures unspent { OnOk result (reader.new.spent ≡ false) }
    ensures answers { (inside : Records) (others : List Piece) → IsBefore reader.old.left inside (ended ∷ others)
        → Answers (IsTable reader.new others) (records.table reader.old.at inside) result }
{
    match reader.next()? {
        NextEntry::Record(code) => {
            let bytes = read_bytes(reader, alloc, code)?;
            end_of_table(reader, alloc)?;
            Ok(bytes)
        }
        NextEntry::Block(id) => Err(misplaced(id, reader.at())),
        NextEntry::End => Err(BitcodeFault::BadRecord {
            block: TABLE_BLOCK,
            index: reader.at(),
            rule: 5,
        }),
    }
}
