//! The records of a body, ahead of its lines.
ghost use Rattle.std.specs.Prelude.{◌≡◌, ◌∷◌, ℕ, List, None, false, IfOk, OnOk};
ghost use Rattle.bit_tree.specs.Pieces.{Piece, ended};
ghost use Rattle.record_table.specs.Faults.{Records};
ghost use Rattle.record_table.specs.Fields.{Numbering};
ghost use Rattle.record_table.specs.Walk.{going};
ghost use Rattle.record_read.specs.Entries.{IsBefore};
ghost use Rattle.record_read.specs.Fields.{texts_of};
ghost use Rattle.body_read.specs.Ahead.Ahead.{AreVoids, GathersRecord, IsAhead};

use crate::ahead::giving::gives;
use crate::ahead::parameters::read_parameters;
use module_arena::LocalNameList;
use record_read::{NextEntry, RecordReader, Texts, one_more};
use record_table::{BLOCK, PARAMETERS};
use std::alloc::{AllocError, Global};
use type_read::arena::LocalCounts;

/// How many values and blocks a body has, and what its parameters are called, where its first record says so and breaks no
/// rule.
#[derive(Drop)]
pub struct BodyAhead {
    pub counts: LocalCounts,
    pub names: Option<LocalNameList>,
}

/// One more record of that code, which is the first or not.
fn gather_record(
    reader: &mut RecordReader<'_>,
    alloc: Global,
    texts: &Texts,
    parameters: u32,
    voids: &[bool],
    ahead: &mut BodyAhead,
    is_first: bool,
    code: u32,
) -> Result<(), AllocError>
    ensures spent { OnOk result (reader.new.spent ≡ reader.old.spent) }
    ensures left { OnOk result (reader.new.left ≡ reader.old.left) }
    ensures gathers { (operands : List ℕ) → reader.old.walk ≡ going operands None → OnOk result (GathersRecord (texts_of texts.now) parameters voids.now is_first code operands ahead.old ahead.new) }
{
    if code == BLOCK {
        ahead.counts.blocks = one_more(ahead.counts.blocks)?;
        return Ok(());
    }
    if is_first && code == PARAMETERS {
        ahead.names = read_parameters(reader, alloc, texts, parameters as u64)?;
        return Ok(());
    }
    if gives(reader, code, voids) {
        ahead.counts.values = one_more(ahead.counts.values)?;
        return Ok(());
    }
    Ok(())
}

/// Goes through the block of a body that was begun, whose function has so many parameters. `voids` says of each type whether
/// it is `void`. The reader stands behind the block then. It refuses nothing but for want of memory.
pub fn gather_body(
    reader: &mut RecordReader<'_>,
    alloc: Global,
    texts: &Texts,
    parameters: u32,
    voids: &[bool],
) -> Result<BodyAhead, AllocError>
    requires { reader.old.spent ≡ false }
    ensures unspent { OnOk result (reader.new.spent ≡ false) }
    ensures ahead { (inside : Records) (others : List Piece) → IsBefore reader.old.left inside (ended ∷ others)
        → IfOk result (λ ahead. ((k : Numbering) → AreVoids voids.now k → IsAhead (texts_of texts.now) k parameters inside ahead) × (reader.new.left ≡ others)) }
{
    let mut ahead = BodyAhead {
        counts: LocalCounts {
            values: parameters,
            blocks: 0,
        },
        names: None,
    };
    let mut is_first = true;
    'records: loop {
        match reader.next()? {
            NextEntry::Record(code) => {
                gather_record(
                    reader, alloc, texts, parameters, voids, &mut ahead, is_first, code,
                )?;
                is_first = false;
            }
            NextEntry::Block(_) => reader.pass_block()?,
            NextEntry::End => return Ok(ahead),
        }
    }
}
