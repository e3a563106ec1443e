//! The blocks that are open, and where the abbreviations that are in force in them are defined.
ghost use Rattle.std.specs.Prelude.{◌≡◌, ℕ, ◌<◌, ◌≤◌, ◌^◌, length, OnOk, option_map, slice_get};
ghost use Rattle.bit_stream.specs.Bits.Bits.{stream_bits};
ghost use Rattle.bit_stream.specs.Scope.{top_level, given_to, given_here, abbreviation_of};
ghost use Rattle.bit_stream.specs.Writer.{in_force};
ghost use Rattle.bit_stream.specs.Entry.{is_blockinfo, entered, block_left, defined, given_for, targeting};
ghost use Rattle.bit_stream.specs.declared.reader.TheConstants.{LARGEST_STREAM};
ghost use Rattle.bit_tree.specs.declared.starts.given.TheConstants.{MOST_DEFINITIONS};
ghost use Rattle.bit_dump.specs.Walk.Starts.{Opened, with_scope, abbreviation_at};

use crate::walk::starts::StartList;
use bit_stream::{ChunkWidth, is_blockinfo};
use bit_tree::starts::Given;
use std::alloc::{AllocError, Global};
use std::marker::Model;
use std::mem;

/// An open block, or the top level.
#[derive(Drop)]
struct StartFrame {
    /// None at the top level.
    id: Option<u32>,
    width: ChunkWidth,
    /// The first bit of the count of words.
    count_bit: u64,
    words: u32,
    /// How many of the abbreviations that were given to its id are in force.
    given: u32,
    own: StartList,
    /// In a BLOCKINFO, the block that definitions are for.
    target: Option<u64>,
}

impl Model for StartFrame {
    ghost use Rattle.bit_dump.specs.Walk.Starts.{StartFrame};

    ghost Value = { StartFrame };

    ghost view = { λ f. record { id = f.id; width = f.width; count_bit = f.count_bit; words = f.words; given = f.given; own = f.own; target = f.target } };
}

/// The bytes of a stream, the blocks that are open, and the abbreviations that BLOCKINFO gave to each block id.
#[derive(Drop)]
pub struct WalkScope<'b> {
    bytes: &'b [u8],
    block: StartFrame,
    around: Vec<StartFrame>,
    given: Given,
    alloc: Global,
}

impl<'b> Model for WalkScope<'b> {
    ghost use Rattle.std.specs.Prelude.{◌≤◌, length};
    ghost use Rattle.bit_stream.specs.Bits.Bits.{stream_bits};
    ghost use Rattle.bit_dump.specs.Walk.Starts.{Opened, opened_at};
    ghost use Rattle.bit_stream.specs.declared.reader.TheConstants.{LARGEST_STREAM};

    ghost Value = { Opened };

    ghost view = { λ s. opened_at (stream_bits s.bytes.now) s.block s.around.items s.given };

    ghost invariant = { λ s. length s.bytes.now ≤ LARGEST_STREAM };
}

impl<'b> WalkScope<'b> {
    /// The top level.
    pub fn new(alloc: Global, bytes: &'b [u8]) -> Self
        requires { length bytes.now ≤ LARGEST_STREAM }
        ensures { result ≡ record { bits = stream_bits bytes.now; scope = top_level } }
    {
        WalkScope {
            bytes,
            block: StartFrame {
                id: None,
                width: ChunkWidth::new(2),
                count_bit: 0,
                words: 0,
                given: 0,
                own: StartList::new(alloc),
                target: None,
            },
            around: Vec::new(alloc),
            given: Given::new(alloc),
            alloc,
        }
    }

    /// The bytes of the stream.
    pub fn bytes(&self) -> &'b [u8]
        ensures bits { stream_bits result.now ≡ self.now.bits }
        ensures short { length result.now ≤ LARGEST_STREAM }
    {
        self.bytes
    }

    /// How many bits an abbreviation id has.
    pub fn width(&self) -> ChunkWidth
        ensures { result ≡ self.now.scope.block.width }
    {
        let block = &self.block;
        block.width
    }

    /// How many blocks are open.
    pub fn depth(&self) -> usize
        ensures { result ≡ length self.now.scope.around }
    {
        self.around.len()
    }

    /// Whether the block is BLOCKINFO.
    pub fn is_blockinfo(&self) -> bool
        ensures { result ≡ is_blockinfo self.now.scope }
    {
        let block = &self.block;
        is_blockinfo(block.id)
    }

    /// The block that a BLOCKINFO's definitions are for.
    pub fn target(&self) -> Option<u64>
        ensures { result ≡ self.now.scope.block.target }
    {
        let block = &self.block;
        block.target
    }

    /// The first bit of the block's count of words.
    pub fn count_bit(&self) -> u64
        ensures { result ≡ self.now.scope.block.count_bit }
    {
        let block = &self.block;
        block.count_bit
    }

    /// The block's count of words.
    pub fn words(&self) -> u32
        ensures { result ≡ self.now.scope.block.words }
    {
        let block = &self.block;
        block.words
    }

    /// How many abbreviations were given to a block id.
    fn given_to(&self, id: u64) -> usize
        ensures value { result ≡ length (given_to self.now.scope.given id) }
        ensures few { result ≤ MOST_DEFINITIONS }
    {
        self.given.count(id)
    }

    /// Enters a block.
    pub fn enter(
        &mut self,
        id: u32,
        width: ChunkWidth,
        count_bit: u64,
        words: u32,
    ) -> Result<(), AllocError>
        ensures { OnOk result (self.new ≡ with_scope self.old (entered self.old.scope id width count_bit words)) }
    {
        let given = self.given_to(u64::from(id)) as u32;
        let block = StartFrame {
            id: Some(id),
            width,
            count_bit,
            words,
            given,
            own: StartList::new(self.alloc),
            target: None,
        };
        let outer = mem::replace(&mut self.block, block);
        self.around.push(outer)?;
        Ok(())
    }

    /// Leaves the block for the one around it.
    pub fn leave(&mut self)
        ensures { self.new ≡ with_scope self.old (block_left self.old.scope) }
    {
        if let Some(outer) = self.around.pop() {
            self.block = outer;
        }
    }

    /// Adds a definition of the block's own, which starts at this bit.
    pub fn define(&mut self, start: u32) -> Result<(), AllocError>
        ensures { OnOk result (self.new ≡ with_scope self.old (defined self.old.scope (abbreviation_at self.old.bits start))) }
    {
        let block = &mut self.block;
        block.own.push(start)
    }

    /// Adds a definition for a block id, which starts at this bit.
    pub fn give(&mut self, id: u64, start: u32) -> Result<(), AllocError>
        ensures { OnOk result (self.new ≡ with_scope self.old (given_for self.old.scope id (abbreviation_at self.old.bits start))) }
    {
        self.given.give(id, start)?;
        Ok(())
    }

    /// How many abbreviations are in force where the next one is defined.
    pub fn in_force(&self) -> usize
        ensures value { result ≡ in_force self.now.scope }
        ensures few { result < 2 ^ 33 }
    {
        if !self.is_blockinfo() {
            let block = &self.block;
            return block.given as usize + block.own.len();
        }
        match self.target() {
            Some(id) => self.given_to(id),
            None => 0,
        }
    }

    /// From now on the definitions of this BLOCKINFO are for this block.
    pub fn set_target(&mut self, id: u64)
        ensures { self.new ≡ with_scope self.old (targeting self.old.scope id) }
    {
        let block = &mut self.block;
        block.target = Some(id);
    }

    /// Where the abbreviation with this index is defined, among those that were given to the block's id.
    fn given_start(&self, index: usize) -> Option<u32>
        ensures { option_map (abbreviation_at self.now.bits) result ≡ slice_get (given_here self.now.scope) index }
    {
        let block = &self.block;
        match block.id {
            Some(id) => self.given.get(u64::from(id), index),
            None => None,
        }
    }

    /// Where the abbreviation of an id from 4 on is defined.
    pub fn start_of(&self, id: u64) -> Option<u32>
        requires { 4 ≤ id }
        ensures { option_map (abbreviation_at self.now.bits) result ≡ abbreviation_of self.now.scope id }
    {
        let index = (id - 4) as usize;
        let block = &self.block;
        let given = block.given as usize;
        if index < given {
            self.given_start(index)
        } else {
            block.own.get(index - given)
        }
    }
}
