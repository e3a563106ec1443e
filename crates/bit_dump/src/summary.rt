//! The lines of a summary, written as they come: there may be as many as a stream has blocks.
ghost use Rattle.std.specs.Prelude.{◌≡◌, [], string_bytes};
ghost use Rattle.bit_dump.specs.Dumped.{Counted};
ghost use Rattle.bit_dump.specs.Telling.{Spilled};
ghost use Rattle.bit_dump.specs.Text.{row_line};

use crate::DumpFault;
use crate::counts::StreamCounts;
use crate::text::put_row;
use ir_base::{Sink, write_all};

/// So many bytes of text are written at once.
pub const ROOM: usize = 1 << 16;

/// Writes a text where it is worth a write.
fn spill_text<S: Sink>(text: &mut String, sink: &mut S) -> Result<(), DumpFault>
    ensures told { Spilled [] (S.taken sink.old) (string_bytes text.old) (S.taken sink.new) (string_bytes text.new) result }
    ensures counted { Counted (S.faults sink.old) (S.faults sink.new) result }
{
    if text.len() < ROOM {
        return Ok(());
    }
    write_all(sink, text.as_bytes())?;
    text.clear();
    Ok(())
}

/// The line of a block id.
pub fn tell_row<S: Sink>(
    id: u32,
    counts: StreamCounts,
    text: &mut String,
    sink: &mut S,
) -> Result<(), DumpFault>
    ensures told { Spilled (row_line (id, counts)) (S.taken sink.old) (string_bytes text.old) (S.taken sink.new) (string_bytes text.new) result }
    ensures counted { Counted (S.faults sink.old) (S.faults sink.new) result }
{
    put_row(text, id, counts)?;
    spill_text(text, sink)
}
