//! Reading a whole stream.
ghost use Rattle.std.specs.Prelude.{◌≡◌, ◌≤◌, length, Some};
ghost use Rattle.bit_stream.specs.declared.reader.TheConstants.{LARGEST_STREAM};
ghost use Rattle.bit_tree.specs.Stream.{is_end};
ghost use Rattle.bit_tree.specs.Read.{AllRead};

use crate::held::{HeldEntry, HeldEntryList};
use bit_stream::{BitReader, Entry, StreamFault};
use std::alloc::Global;

/// Whether it is the end of the stream.
pub fn is_end(entry: Entry) -> bool
    ensures { result ≡ is_end (Some entry) }
{
    match entry {
        Entry::End => true,
        Entry::Block(_) | Entry::EndBlock | Entry::Record(_) => false,
    }
}

/// The entries of the stream's tree, in order and without the end, or the first field of it that is refused.
pub fn read_stream(alloc: Global, bytes: &[u8]) -> Result<HeldEntryList, StreamFault>
    requires { length bytes.now ≤ LARGEST_STREAM }
    ensures { AllRead bytes.now result }
{
    let mut reader = BitReader::new(alloc, bytes)?;
    let mut entries = HeldEntryList::new(alloc);
    loop {
        let entry = reader.next_entry()?;
        if is_end(entry) {
            return Ok(entries);
        }
        entries.push(HeldEntry::of(alloc, entry, &reader)?)?;
    }
}
