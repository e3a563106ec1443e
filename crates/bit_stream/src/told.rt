//! What a reader tells of blocks and records beside what they hold.
ghost use Rattle.std.specs.Prelude.{◌≡◌, false};
ghost use Rattle.bit_stream.specs.Reader.{told_of};

use crate::entry::Entry;
use crate::item::StreamItem;
use crate::scope::Scope;

/// The width and the count of words of the block that was entered last, and of the record that was read last the
/// abbreviation id and whether it ended in a blob. Before the first block and the first record they are 0 and false.
#[derive(Clone, Copy)]
pub struct LastSeen {
    pub width: u32,
    pub words: u32,
    pub abbreviation: u32,
    pub has_blob: bool,
}

impl LastSeen {
    /// Before the first block and the first record.
    pub fn nothing() -> Self
        ensures { result ≡ record { width = 0; words = 0; abbreviation = 0; has_blob = false } }
    {
        LastSeen {
            width: 0,
            words: 0,
            abbreviation: 0,
            has_blob: false,
        }
    }

    /// Behind an entry, which left these blocks open.
    pub fn behind(self, entry: Entry, item: &StreamItem, scope: &Scope) -> Self
        ensures { result ≡ told_of self entry scope.now item.now.id item.now.has_blob }
    {
        match entry {
            Entry::Block(_) => LastSeen {
                width: scope.width().bits(),
                words: scope.words(),
                abbreviation: self.abbreviation,
                has_blob: self.has_blob,
            },
            Entry::Record(_) => LastSeen {
                width: self.width,
                words: self.words,
                abbreviation: item.id,
                has_blob: item.has_blob,
            },
            Entry::EndBlock | Entry::End => self,
        }
    }
}
