//! Judging a whole stream, one entry at a time.
ghost use Rattle.std.specs.Prelude.{◌≤◌, length};
ghost use Rattle.bit_stream.specs.declared.reader.TheConstants.{LARGEST_STREAM};
ghost use Rattle.bit_tree.specs.Read.{Judged};

use crate::read::is_end;
use bit_stream::{BitReader, StreamFault};
use std::alloc::Global;

/// Whether the bytes are the stream of a tree, or the first field of it that is refused. It never holds more than one
/// entry, with the definitions in front of it.
pub fn judge(alloc: Global, bytes: &[u8]) -> Result<(), StreamFault>
    requires { length bytes.now ≤ LARGEST_STREAM }
    ensures { Judged bytes.now result }
{
    let mut reader = BitReader::new(alloc, bytes)?;
    'judging: loop {
        let entry = reader.next_entry()?;
        if is_end(entry) {
            return Ok(());
        }
    }
}
