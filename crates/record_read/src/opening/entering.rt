//! The way into the block of the module, and what stands behind it.
ghost use Rattle.std.specs.Prelude.{◌≡◌, [], ⊤, false, OnOk};
ghost use Rattle.record_table.specs.Faults.{Records};
ghost use Rattle.record_table.specs.Records as records;
ghost use Rattle.record_read.specs.Entries.{IsBefore};
ghost use Rattle.record_read.specs.Faults.{Answers};
ghost use Rattle.record_read.specs.Opening.Entering.{EntersModule, IsIn, is_table_block, module_in};
ghost use Rattle.record_read.specs.Opening.Producer.{IsWholeStream};

use crate::opening::table::read_table;
use crate::{BitcodeFault, NextEntry, RecordReader, Texts, misplaced};
use record_table::{MODULE_BLOCK, TABLE_BLOCK};
use std::alloc::Global;

/// Whether an entry of the stream is the block of the string table.
fn is_table(entry: NextEntry) -> bool
    ensures { result ≡ is_table_block entry }
{
    match entry {
        NextEntry::Block(id) => id == TABLE_BLOCK,
        NextEntry::Record(_) | NextEntry::End => false,
    }
}

/// Goes into the module's block, where an entry of the stream is one. Others are refused.
fn enter_module(entry: NextEntry, at: u64) -> Result<(), BitcodeFault>
    ensures { EntersModule entry at result }
{
    match entry {
        NextEntry::Block(id) => {
            if id == MODULE_BLOCK {
                Ok(())
            } else {
                Err(misplaced(id, at))
            }
        }
        NextEntry::Record(_) => Err(BitcodeFault::BadRecord {
            block: MODULE_BLOCK,
            index: at,
            rule: 5,
        }),
        NextEntry::End => Err(BitcodeFault::BadRecord {
            block: MODULE_BLOCK,
            index: at,
            rule: 5,
        }),
    }
}

/// Goes into the module's block, behind the string table where there is one, and tells how texts stand in it. What else
/// stands there is refused.
pub fn read_texts(reader: &mut RecordReader<'_>, alloc: Global) -> Result<Texts, BitcodeFault>
    requires unspent { reader.old.spent ≡ false }
    requires whole { IsWholeStream reader.old.left }
    ensures unspent { OnOk result (reader.new.spent ≡ false) }
    ensures answers { (all : Records) → IsBefore reader.old.left all [] → Answers (IsIn reader.new) (module_in reader.old.at all) result }
{
    let at = reader.at();
    let entry = reader.next()?;
    if is_table(entry) {
        let bytes = read_table(reader, alloc)?;
        let behind = reader.at();
        let following = reader.next()?;
        enter_module(following, behind)?;
        return Ok(Texts::Table(bytes));
    }
    enter_module(entry, at)?;
    Ok(Texts::Inline)
}

/// Refuses what stands behind the module's block: nothing does.
pub fn expect_end(reader: &mut RecordReader<'_>) -> Result<(), BitcodeFault>
    requires { reader.old.spent ≡ false }
    ensures { (s : records.Sofar) (behind : Records) → IsBefore reader.old.left behind [] → reader.old.at ≡ s.at → Answers (λ done m. ⊤) (records.nothing_behind s behind) result }
{
    let at = reader.at();
    match reader.next()? {
        NextEntry::End => Ok(()),
        NextEntry::Block(id) => Err(misplaced(id, at)),
        NextEntry::Record(_) => Err(BitcodeFault::BadRecord {
            block: MODULE_BLOCK,
            index: at,
            rule: 5,
        }),
    }
}
