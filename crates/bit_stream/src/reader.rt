//! The reader of a stream.
ghost use Rattle.std.specs.Prelude.{◌≡◌, ℕ, ◌+◌, ◌<◌, ◌≤◌, ◌^◌, length, Some, None, ◌≢◌, OnErr};
ghost use Rattle.bit_stream.specs.Bits.Reading.{fixed, vbr};
ghost use Rattle.bit_stream.specs.Reader.{StreamReader, opened, Numbered, Entered, Reached, Stopped};
ghost use Rattle.bit_stream.specs.Writer.{in_force};
ghost use Rattle.bit_stream.specs.declared.abbreviation.TheConstants.{WIDEST_CHUNK, WIDEST_FIELD};
ghost use Rattle.bit_stream.specs.declared.reader.TheConstants.{LARGEST_STREAM};
ghost use Rattle.bit_stream.specs.declared.fault.StreamFault.TheVariants.{Memory};

use crate::StreamFault;
use crate::abbreviation::AbbreviationList;
use crate::bits::{BitCursor, BitFault, BitFaultKind};
use crate::entry::Entry;
use crate::item::next_item;
use crate::scope::Scope;
use crate::told::LastSeen;
use std::alloc::Global;
use std::marker::Model;

/// The most bytes of a stream that is read.
pub const LARGEST_STREAM: usize = 16_777_216;

/// The bytes 42 43 C0 DE that a stream begins with, as a number of 32 bits.
pub const MAGIC: u64 = 0xdec0_4342;

/// A reader of the entries of a stream, in order, or of its fields.
///
/// After a fault each call that can be refused answers that fault. After want of memory the reader is spent.
#[derive(Drop)]
pub struct BitReader<'b> {
    cursor: BitCursor<'b>,
    scope: Scope,
    stopped: Option<StreamFault>,
    operands: Vec<u64>,
    blob: &'b [u8],
    told: LastSeen,
    definitions: AbbreviationList,
    alloc: Global,
}

impl<'b> Model for BitReader<'b> {
    ghost use Rattle.bit_stream.specs.Reader.{StreamReader};

    ghost Value = { StreamReader };

    ghost view = { λ r. record { cursor = r.cursor; scope = r.scope; stopped = r.stopped; operands = r.operands.items; blob = r.blob.now; told = r.told; definitions = r.definitions } };
}

impl<'b> BitReader<'b> {
    /// A reader behind the bytes 42 43 C0 DE. It is refused exactly where the stream does not begin with them.
    pub fn new(alloc: Global, bytes: &'b [u8]) -> Result<BitReader<'b>, BitFault>
        requires { length bytes.now ≤ LARGEST_STREAM }
        ensures { result ≡ opened bytes.now }
    {
        let mut cursor = BitCursor::new(bytes);
        let bad_magic = BitFault {
            kind: BitFaultKind::BadMagic,
            bit: 0,
        };
        let Ok(number) = cursor.fixed(32) else {
            return Err(bad_magic);
        };
        if number != MAGIC {
            return Err(bad_magic);
        }
        Ok(BitReader {
            cursor,
            scope: Scope::new(alloc),
            stopped: None,
            operands: Vec::new(alloc),
            blob: &[],
            told: LastSeen::nothing(),
            definitions: AbbreviationList::new(alloc),
            alloc,
        })
    }

    /// The number of `W` bits in front.
    pub fn fixed<const W: u32>(&mut self) -> Result<u64, BitFault>
        requires low { 1 ≤ W }
        requires high { W ≤ WIDEST_FIELD }
        requires unspent { self.old.stopped ≢ Some Memory }
        ensures { Numbered self.old.stopped self.old (fixed W self.old.cursor) result self.new }
    {
        self.fixed_of(W)
    }

    /// The number in chunks of `W` bits in front.
    pub fn vbr<const W: u32>(&mut self) -> Result<u64, BitFault>
        requires low { 2 ≤ W }
        requires high { W ≤ WIDEST_CHUNK }
        requires unspent { self.old.stopped ≢ Some Memory }
        ensures { Numbered self.old.stopped self.old (vbr W self.old.cursor) result self.new }
    {
        self.vbr_of(W)
    }

    /// The number of `width` bits in front.
    pub fn fixed_of(&mut self, width: u32) -> Result<u64, BitFault>
        requires low { 1 ≤ width }
        requires high { width ≤ WIDEST_FIELD }
        requires unspent { self.old.stopped ≢ Some Memory }
        ensures { Numbered self.old.stopped self.old (fixed width self.old.cursor) result self.new }
    {
        match self.stopped {
            Some(StreamFault::Bit(fault)) => return Err(fault),
            Some(StreamFault::Memory) => unreachable!(),
            None => {}
        }
        match self.cursor.fixed(width) {
            Ok(number) => Ok(number),
            Err(fault) => {
                self.stop(StreamFault::Bit(fault));
                Err(fault)
            }
        }
    }

    /// The number in chunks of `width` bits in front.
    pub fn vbr_of(&mut self, width: u32) -> Result<u64, BitFault>
        requires low { 2 ≤ width }
        requires high { width ≤ WIDEST_CHUNK }
        requires unspent { self.old.stopped ≢ Some Memory }
        ensures { Numbered self.old.stopped self.old (vbr width self.old.cursor) result self.new }
    {
        match self.stopped {
            Some(StreamFault::Bit(fault)) => return Err(fault),
            Some(StreamFault::Memory) => unreachable!(),
            None => {}
        }
        match self.cursor.vbr(width) {
            Ok(number) => Ok(number),
            Err(fault) => {
                self.stop(StreamFault::Bit(fault));
                Err(fault)
            }
        }
    }

    /// The next entry. Definitions are taken in on the way.
    pub fn next_entry(&mut self) -> Result<Entry, StreamFault>
        ensures { Entered self.old.stopped self.old result self.new }
    {
        if let Some(fault) = self.stopped {
            return Err(fault);
        }
        match self.read_entry() {
            Ok(entry) => Ok(entry),
            Err(fault) => {
                self.stop(fault);
                Err(fault)
            }
        }
    }

    /// The operands of the record that was read last, without its code; none behind any other entry.
    pub fn operands(&self) -> &[u64]
        ensures { result.now ≡ self.now.operands }
    {
        &self.operands
    }

    /// The blob of the record that was read last; none where it had none.
    pub fn blob(&self) -> &[u8]
        ensures { result.now ≡ self.now.blob }
    {
        self.blob
    }

    /// The width of the abbreviation ids of the block that was entered last, in bits; 0 before the first block.
    pub fn entry_width(&self) -> u32
        ensures { result ≡ self.now.told.width }
    {
        self.told.width
    }

    /// The count of words of the block that was entered last; 0 before the first block.
    pub fn entry_words(&self) -> u32
        ensures { result ≡ self.now.told.words }
    {
        self.told.words
    }

    /// The abbreviation id by which the last record was read; 0 before the first record.
    pub fn entry_abbreviation(&self) -> u32
        ensures { result ≡ self.now.told.abbreviation }
    {
        self.told.abbreviation
    }

    /// Whether the last record ended in a blob, an empty one included; false before the first record.
    pub fn has_blob(&self) -> bool
        ensures { result ≡ self.now.told.has_blob }
    {
        self.told.has_blob
    }

    /// The definitions between the entry that was read last and the one before it, in order; none after a fault.
    pub fn definitions(&self) -> &AbbreviationList
        ensures { result.now ≡ self.now.definitions }
    {
        &self.definitions
    }

    /// The abbreviation id of a definition in front, if one stands there: that behind those in force. In BLOCKINFO these
    /// are the ones of the block that was named.
    pub fn next_abbreviation(&self) -> u64
        ensures value { result ≡ in_force self.now.scope + 4 }
        ensures few { result < 2 ^ 34 }
    {
        self.scope.in_force() as u64 + 4
    }

    /// From now on this fault is answered, and no record and no definitions are held.
    fn stop(&mut self, fault: StreamFault)
        ensures stopped { Stopped fault self.new }
        ensures told { self.new.told ≡ self.old.told }
    {
        self.stopped = Some(fault);
        self.operands.clear();
        self.blob = &[];
        self.definitions = AbbreviationList::new(self.alloc);
    }

    /// The next entry of a reader that has not stopped.
    fn read_entry(&mut self) -> Result<Entry, StreamFault>
        requires { self.old.stopped ≡ None }
        ensures reached { Reached self.old result self.new }
        ensures told { OnErr result (self.new.told ≡ self.old.told) }
    {
        self.definitions = AbbreviationList::new(self.alloc);
        loop {
            self.operands.clear();
            let item = next_item(
                &mut self.cursor,
                &mut self.scope,
                &mut self.operands,
                &mut self.definitions,
                self.alloc,
            )?;
            self.blob = item.blob;
            if let Some(entry) = item.entry {
                self.told = self.told.behind(entry, &item, &self.scope);
                return Ok(entry);
            }
        }
    }
}
