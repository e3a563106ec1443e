//! The blocks that are open, and the abbreviations that are in force in them.
ghost use Rattle.std.specs.Prelude.{◌≡◌, ℕ, ◌<◌, ◌≤◌, ◌^◌, [], ◌++◌, ◌∷◌, length, Some, None, OnOk, option_copied, ◌==◌};
ghost use Rattle.bit_stream.specs.Scope.{Scope, top_level, abbreviation_of};
ghost use Rattle.bit_stream.specs.Writer.{in_force};
ghost use Rattle.bit_stream.specs.Entry.{is_top, is_zero, is_blockinfo, entered, block_left, defined, given_for, targeting};

use crate::abbreviation::{AdmittedAbbreviation, ChunkWidth};
use crate::admitted::AdmittedList;
use std::alloc::{AllocError, Global};
use std::collections::BTreeMap;
use std::marker::Model;
use std::mem;

/// Whether a block of this id is BLOCKINFO, whose id is 0. The top level has no id.
#[inline(always)]
pub fn is_blockinfo(id: Option<u32>) -> bool
    ensures { result ≡ is_zero id }
{
    match id {
        Some(id) => id == 0,
        None => false,
    }
}

/// An open block, or the top level.
#[derive(Drop)]
struct BlockFrame {
    /// None at the top level.
    id: Option<u32>,
    width: ChunkWidth,
    /// The first bit of the count of words.
    count_bit: u64,
    words: u32,
    /// How many of the abbreviations that were given to its id are in force.
    given: u32,
    own: AdmittedList,
    /// In a BLOCKINFO, the block that definitions are for.
    target: Option<u64>,
}

impl Model for BlockFrame {
    ghost use Rattle.bit_stream.specs.Scope.{BlockFrame};

    ghost Value = { BlockFrame };

    ghost view = { λ f. record { id = f.id; width = f.width; count_bit = f.count_bit; words = f.words; given = f.given; own = f.own; target = f.target } };
}

/// The blocks that are open, and the abbreviations that BLOCKINFO gave to each block id.
#[derive(Drop)]
pub struct Scope {
    block: BlockFrame,
    around: Vec<BlockFrame>,
    given: BTreeMap<u64, AdmittedList>,
    alloc: Global,
}

impl Model for Scope {
    ghost use Rattle.bit_stream.specs.Scope.{Scope};

    ghost Value = { Scope };

    ghost view = { λ s. record { block = s.block; around = s.around.items; given = s.given.entries } };
}

impl Scope {
    /// The top level.
    pub fn new(alloc: Global) -> Self
        ensures { result ≡ top_level }
    {
        Scope {
            block: BlockFrame {
                id: None,
                width: ChunkWidth::new(2),
                count_bit: 0,
                words: 0,
                given: 0,
                own: AdmittedList::new(alloc),
                target: None,
            },
            around: Vec::new(alloc),
            given: BTreeMap::new(alloc),
            alloc,
        }
    }

    /// How many bits an abbreviation id has.
    pub fn width(&self) -> ChunkWidth
        ensures { result ≡ self.now.block.width }
    {
        let block = &self.block;
        block.width
    }

    /// How many blocks are open.
    pub fn depth(&self) -> usize
        ensures { result ≡ length self.now.around }
    {
        self.around.len()
    }

    /// Whether the block is BLOCKINFO.
    pub fn is_blockinfo(&self) -> bool
        ensures { result ≡ is_blockinfo self.now }
    {
        let block = &self.block;
        is_blockinfo(block.id)
    }

    /// The block that a BLOCKINFO's definitions are for.
    pub fn target(&self) -> Option<u64>
        ensures { result ≡ self.now.block.target }
    {
        let block = &self.block;
        block.target
    }

    /// The first bit of the block's count of words.
    pub fn count_bit(&self) -> u64
        ensures { result ≡ self.now.block.count_bit }
    {
        let block = &self.block;
        block.count_bit
    }

    /// The block's count of words.
    pub fn words(&self) -> u32
        ensures { result ≡ self.now.block.words }
    {
        let block = &self.block;
        block.words
    }

    /// Enters a block.
    pub fn enter(
        &mut self,
        id: u32,
        width: ChunkWidth,
        count_bit: u64,
        words: u32,
    ) -> Result<(), AllocError>
        ensures { OnOk result (self.new ≡ entered self.old id width count_bit words) }
    {
        let given = match self.given.get(&u64::from(id)) {
            Some(list) => list.len() as u32,
            None => 0,
        };
        let block = BlockFrame {
            id: Some(id),
            width,
            count_bit,
            words,
            given,
            own: AdmittedList::new(self.alloc),
            target: None,
        };
        let outer = mem::replace(&mut self.block, block);
        self.around.push(outer)?;
        Ok(())
    }

    /// Leaves the block for the one around it.
    pub fn leave(&mut self)
        ensures { self.new ≡ block_left self.old }
    {
        if let Some(outer) = self.around.pop() {
            self.block = outer;
        }
    }

    /// Adds a definition of the block's own.
    pub fn define(&mut self, abbreviation: AdmittedAbbreviation) -> Result<(), AllocError>
        ensures { OnOk result (self.new ≡ defined self.old abbreviation) }
    {
        let block = &mut self.block;
        block.own.push(abbreviation)
    }

    /// Adds a definition for a block id.
    pub fn give(&mut self, id: u64, abbreviation: AdmittedAbbreviation) -> Result<(), AllocError>
        ensures { OnOk result (self.new ≡ given_for self.old id abbreviation) }
    {
        let mut list = match self.given.remove(&id) {
            Some(list) => list,
            None => AdmittedList::new(self.alloc),
        };
        list.push(abbreviation)?;
        self.given.insert(id, list)?;
        Ok(())
    }

    /// How many abbreviations are in force where the next one is defined.
    pub fn in_force(&self) -> usize
        ensures value { result ≡ in_force self.now }
        ensures few { result < 2 ^ 33 }
    {
        if !self.is_blockinfo() {
            let block = &self.block;
            return block.given as usize + block.own.len();
        }
        let Some(id) = self.target() else {
            return 0;
        };
        match self.given.get(&id) {
            Some(list) => list.len(),
            None => 0,
        }
    }

    /// From now on the definitions of this BLOCKINFO are for this block.
    pub fn set_target(&mut self, id: u64)
        ensures { self.new ≡ targeting self.old id }
    {
        let block = &mut self.block;
        block.target = Some(id);
    }

    /// The abbreviation of an id from 4 on.
    pub fn abbreviation(&self, id: u64) -> Option<&AdmittedAbbreviation>
        requires { 4 ≤ id }
        ensures { option_copied result ≡ abbreviation_of self.now id }
    {
        let index = (id - 4) as usize;
        let block = &self.block;
        let given = block.given as usize;
        if index < given {
            let list = self.given.get(&u64::from(block.id?))?;
            list.get(index)
        } else {
            block.own.get(index - given)
        }
    }
}
