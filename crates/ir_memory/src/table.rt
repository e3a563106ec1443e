//! All blocks by their numbers.
ghost use Rattle.std.specs.Prelude.{◌≡◌, ◌≢◌, ℕ, ◌+◌, ◌<◌, ◌++◌, ◌∷◌, [], length, slice_index_or, slice_set, MatchOption, OnOk, OnErr};
ghost use Rattle.ir_memory.specs.Numbered.{IsPaged, kept_in};
ghost use Rattle.ir_memory.specs.Seen.{IsLiveAt, ended_block};
ghost use Rattle.ir_memory.specs.Lending.{LendsBlock};
ghost use Rattle.std.specs.Borrow.{sem};

use crate::kept::KeptBlock;
use crate::masked::MaskedBytes;
use crate::page::{Page, ROWS};
use std::alloc::{AllocError, Global};
use std::marker::Model;

/// The blocks of a run by their numbers, counted from 0, in pages of 64 numbers each. Of those that have ended nothing is kept: one
/// row stands for each of them, and for all of a page together none.
#[derive(Drop)]
pub struct BlockTable {
    alloc: Global,
    pages: Vec<Page>,
    ended: KeptBlock,
    count: usize,
}

impl Model for BlockTable {
    ghost use Rattle.std.specs.Prelude.{◌≡◌, List};
    ghost use Rattle.ir_memory.specs.declared.kept.KeptBlock.{KeptBlock};
    ghost use Rattle.ir_memory.specs.Seen.{ended_block};
    ghost use Rattle.ir_memory.specs.Numbered.{IsPaged, kept_in, numbered};

    ghost Value = { List KeptBlock };

    ghost view = { λ t. numbered t.count (kept_in t.pages.items) };

    ghost invariant = { λ t. (t.ended ≡ ended_block) × IsPaged t.count t.pages.items };
}

/// Puts the block that has the next number behind the first so many. Where memory is refused, nothing changes.
fn put(
    pages: &mut Vec<Page>,
    alloc: Global,
    count: usize,
    block: KeptBlock,
) -> Result<(), AllocError>
    requires { IsPaged count pages.old.items }
    ensures paged { OnOk result (IsPaged (count + 1) pages.new.items) }
    ensures here { OnOk result (kept_in pages.new.items count ≡ block) }
    ensures others { OnOk result ((k : ℕ) → k ≢ count → kept_in pages.new.items k ≡ kept_in pages.old.items k) }
    ensures err { OnErr result (pages.new.items ≡ pages.old.items) }
{
    if count % ROWS == 0 {
        let page = Page::new(alloc, block)?;
        pages.push(page)?;
        return Ok(());
    }
    pages[count / ROWS].push(block)?;
    Ok(())
}

impl BlockTable {
    /// No blocks.
    pub fn new(alloc: Global) -> BlockTable
        ensures { result ≡ [] }
    {
        BlockTable {
            alloc,
            pages: Vec::new(alloc),
            ended: KeptBlock::ended(alloc),
            count: 0,
        }
    }

    /// How many blocks there are.
    pub fn len(&self) -> usize
        ensures { result ≡ length self.now }
    {
        self.count
    }

    /// Adds a block behind all others. Where memory is refused, nothing changes.
    pub fn push(&mut self, block: KeptBlock) -> Result<(), AllocError>
        ensures pushed { OnOk result (self.new ≡ self.old ++ block ∷ []) }
        ensures err { OnErr result (self.new ≡ self.old) }
    {
        let count = self.count.checked_add(1).ok_or(AllocError)?;
        put(&mut self.pages, self.alloc, self.count, block)?;
        self.count = count;
        Ok(())
    }

    /// The block of a number.
    #[inline(always)]
    pub fn get(&self, index: usize) -> &KeptBlock
        requires { index < length self.now }
        ensures { result.now ≡ slice_index_or self.now index result.now }
    {
        let page = &self.pages[index / ROWS];
        let place = index % ROWS;
        if place < page.len() {
            return page.at(place);
        }
        &self.ended
    }

    /// The block of a number where a row is kept for it, and None only where it has ended.
    #[inline(always)]
    pub fn row(&self, index: usize) -> Option<&KeptBlock>
        requires { index < length self.now }
        ensures { MatchOption result (slice_index_or self.now index ended_block ≡ ended_block) (λ b. b.now ≡ slice_index_or self.now index b.now) }
    {
        let page = &self.pages[index / ROWS];
        let place = index % ROWS;
        if place < page.len() {
            return Some(page.at(place));
        }
        None
    }

    /// The live block of a number, to be changed.
    #[inline(always)]
    pub fn get_mut(&mut self, index: usize) -> &mut KeptBlock
        requires index { index < length self.old }
        requires live { IsLiveAt self.old index }
        ensures* writes_back { sem 𝓛 (LendsBlock self.entry index result) }
        ensures value { result.now ≡ slice_index_or self.old index result.now }
    {
        let page = &mut self.pages[index / ROWS];
        page.at_mut(index % ROWS)
    }

    /// Ends the block of a number: nothing of it is kept. What it had of bytes comes back.
    pub fn end(&mut self, index: usize) -> MaskedBytes
        requires { index < length self.old }
        ensures { self.new ≡ slice_set self.old index ended_block }
    {
        let alloc = self.alloc;
        self.pages[index / ROWS].end(alloc, index % ROWS)
    }
}
