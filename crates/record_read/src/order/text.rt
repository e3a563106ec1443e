//! The records of the module's texts.
ghost use Rattle.std.specs.Prelude.{◌≡◌, ◌<◌, ℕ, List, suc, Option, OnOk};
ghost use Rattle.record_table.specs.Records as records;
ghost use Rattle.record_read.specs.Faults.{Answers};
ghost use Rattle.record_read.specs.Fields.{texts_of};
ghost use Rattle.record_read.specs.Order.Order.{IsBehindRecord, StandsBehind, place_of};

use crate::order::part::{ModulePart, end_part};
use crate::{BitcodeFault, RecordReader, Texts, read_last};
use ir_base::Text;
use std::alloc::Global;

/// Reads the record of a text of the module, which is that part, behind what stands at the place `last`. It is refused by the
/// least rule that it breaks.
pub fn read_module_text(
    reader: &mut RecordReader<'_>,
    alloc: Global,
    texts: &Texts,
    last: u8,
    part: ModulePart,
) -> Result<Option<Text>, BitcodeFault>
    requires { 0 < reader.old.at }
    ensures stays { OnOk result (IsBehindRecord reader.old reader.new) }
    ensures answers { (s : records.Sofar) (operands : List ℕ) (after : Option (List ℕ) → records.Sofar) → StandsBehind (texts_of texts.now) last reader.old s operands
        → Answers (λ text t. t ≡ record (after text) { at = suc s.at; last = place_of part }) (records.text_record s (place_of part) operands after) result }
{
    let text = read_last(reader, alloc, texts)?;
    end_part(reader, last, part)?;
    Ok(text)
}
