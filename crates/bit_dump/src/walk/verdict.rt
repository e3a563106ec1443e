//! Judging a whole stream, one entry at a time.
ghost use Rattle.std.specs.Prelude.{◌≡◌, ◌≤◌, Ok, Err, length, if◌then◌else◌};
ghost use Rattle.bit_stream.specs.declared.bits.fault.BitFaultKind.TheVariants.{BadMagic};
ghost use Rattle.bit_stream.specs.Reader.{begins};
ghost use Rattle.bit_stream.specs.declared.reader.TheConstants.{LARGEST_STREAM};
ghost use Rattle.bit_tree.specs.Stream.{is_end, opening};
ghost use Rattle.bit_tree.specs.Read.{Judged};

use crate::walk::item::pass_next;
use crate::walk::scope::WalkScope;
use crate::walk::starts::Kept;
use bit_stream::bits::{BitCursor, BitFault};
use bit_stream::{BitReader, Entry, StreamFault};
use std::alloc::Global;

/// Whether the bytes are the stream of a tree, or the first field of it that is refused. It holds a few bytes for each
/// abbreviation, and no operands.
pub fn judge(alloc: Global, bytes: &[u8]) -> Result<(), StreamFault>
    requires { length bytes.now ≤ LARGEST_STREAM }
    ensures { Judged bytes.now result }
{
    let mut cursor = opening(alloc, bytes)?;
    let mut scope = WalkScope::new(alloc, bytes);
    let mut kept = Kept::nothing(alloc);
    'judging: loop {
        let item = pass_next(&mut cursor, &mut scope, &mut kept, alloc)?;
        if is_end(item.entry) {
            return Ok(());
        }
    }
}

/// The place behind the bytes 42 43 C0 DE, which a stream begins with.
fn opening<'b>(alloc: Global, bytes: &'b [u8]) -> Result<BitCursor<'b>, BitFault>
    requires { length bytes.now ≤ LARGEST_STREAM }
    ensures { result ≡ (if begins bytes.now then Ok (opening bytes.now) else Err (record { kind = BadMagic; bit = 0 })) }
{
    BitReader::new(alloc, bytes)?;
    Ok(BitCursor::at_bit(bytes, 32))
}

/// Whether it is the end of the stream.
fn is_end(entry: Option<Entry>) -> bool
    ensures { result ≡ is_end entry }
{
    match entry {
        Some(Entry::End) => true,
        Some(Entry::Block(_) | Entry::EndBlock | Entry::Record(_)) | None => false,
    }
}
