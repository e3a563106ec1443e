//! Entries with what a reader holds behind them.
ghost use Rattle.std.specs.Prelude.{◌≡◌, IfOk};
ghost use Rattle.bit_tree.specs.Stream.{Shown};

use bit_stream::{BitReader, Entry};
use ir_base::ItemList;
use std::alloc::{AllocError, Global};
use std::marker::Model;

/// An entry of a stream; of a record, its operands and its blob, which are empty at any other entry.
#[derive(Drop)]
pub struct HeldEntry {
    pub entry: Entry,
    pub operands: Vec<u64>,
    pub blob: Vec<u8>,
}

impl Model for HeldEntry {
    ghost use Rattle.bit_tree.specs.Stream.{Shown};

    ghost Value = { Shown };

    ghost view = { λ e. record { entry = e.entry; operands = e.operands.items; blob = e.blob.items } };
}

/// Some entries, in order.
pub type HeldEntryList = ItemList<HeldEntry>;

impl HeldEntry {
    /// The entry that a reader answered last, with what it holds.
    pub fn of(alloc: Global, entry: Entry, reader: &BitReader) -> Result<Self, AllocError>
        ensures { IfOk result (λ held. held ≡ record { entry = entry; operands = reader.now.operands; blob = reader.now.blob }) }
    {
        Ok(HeldEntry {
            entry,
            operands: Vec::from_slice(alloc, reader.operands())?,
            blob: Vec::from_slice(alloc, reader.blob())?,
        })
    }
}
