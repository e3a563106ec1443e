//! Blocks whose numbers follow one another.
ghost use Rattle.std.specs.Prelude.{◌≡◌, ◌≢◌, ℕ, ◌<◌, ◌≤◌, ◌++◌, ◌∷◌, [], length, slice_index_or, None, IfOk, OnOk, OnErr};
ghost use Rattle.std.specs.Borrow.{sem};
ghost use Rattle.ir_memory.specs.Numbered.{row};
ghost use Rattle.ir_memory.specs.Rows.{LendsRow};
ghost use Rattle.ir_memory.specs.Seen.{ended_block};

use crate::kept::KeptBlock;
use crate::masked::MaskedBytes;
use std::alloc::{AllocError, Global};
use std::marker::Model;
use std::mem;

/// For how many numbers a page is.
pub const ROWS: usize = 64;

/// The blocks of up to 64 numbers that follow one another, a row for each. The row of a block that has ended keeps nothing of it, and
/// once all 64 have ended there is no row.
#[derive(Drop)]
pub struct Page {
    rows: Vec<KeptBlock>,
    /// A row of which something was kept when one was looked for last.
    found: usize,
}

impl Model for Page {
    ghost use Rattle.std.specs.Prelude.{List};
    ghost use Rattle.ir_memory.specs.declared.kept.KeptBlock.{KeptBlock};

    ghost Value = { List KeptBlock };

    ghost view = { λ p. p.rows.items };
}

/// Whether a page is not full, or its last block lives, or the one that was found last. That tells nearly always that a page is not
/// spent: where blocks end in the order in which they began, by the last, and else by the first that lived, which mostly lives longest.
#[inline(always)]
fn is_in_use(rows: &[KeptBlock], found: usize) -> bool {
    if rows.len() < ROWS {
        return true;
    }
    if found < rows.len() && rows[found].live {
        return true;
    }
    rows[ROWS - 1].live
}

/// The first row of which something is kept, or of a page that is not full any. None where a page is full, and all its blocks have ended.
#[inline(never)]
fn first_kept(rows: &[KeptBlock]) -> Option<usize>
    ensures full { result ≡ None → 64 ≤ length rows.now }
    ensures ended { result ≡ None → (k : ℕ) → row rows.now k ≡ ended_block }
{
    if rows.len() < ROWS {
        return Some(0);
    }
    'blocks: for place in 0..rows.len() {
        if !rows[place].is_gone() {
            return Some(place);
        }
    }
    None
}

impl Page {
    /// A page with one row.
    pub fn new(alloc: Global, block: KeptBlock) -> Result<Page, AllocError>
        ensures { IfOk result (λ page. page ≡ block ∷ []) }
    {
        let mut rows = Vec::with_capacity(alloc, ROWS)?;
        rows.push(block)?;
        Ok(Page { rows, found: 0 })
    }

    /// How many rows there are.
    #[inline(always)]
    pub fn len(&self) -> usize
        ensures { result ≡ length self.now }
    {
        self.rows.len()
    }

    /// Adds a row behind all others. Where memory is refused, nothing changes.
    pub fn push(&mut self, block: KeptBlock) -> Result<(), AllocError>
        ensures pushed { OnOk result (self.new ≡ self.old ++ block ∷ []) }
        ensures err { OnErr result (self.new ≡ self.old) }
    {
        self.rows.push(block)?;
        Ok(())
    }

    /// The block of a row.
    #[inline(always)]
    pub fn at(&self, place: usize) -> &KeptBlock
        requires { place < length self.now }
        ensures { result.now ≡ slice_index_or self.now place result.now }
    {
        &self.rows[place]
    }

    /// The block of a row, to be changed.
    #[inline(always)]
    pub fn at_mut(&mut self, place: usize) -> &mut KeptBlock
        requires { place < length self.old }
        ensures* writes_back { sem 𝓛 (LendsRow self.entry place result) }
        ensures value { result.now ≡ slice_index_or self.old place result.now }
    {
        &mut self.rows[place]
    }

    /// Ends the block of a row: nothing of it is kept. What it had of bytes comes back.
    pub fn end(&mut self, alloc: Global, place: usize) -> MaskedBytes
        ensures here { row self.new place ≡ ended_block }
        ensures others { (k : ℕ) → k ≢ place → row self.new k ≡ row self.old k }
        ensures long { length self.old < 64 → length self.new ≡ length self.old }
    {
        if place >= self.rows.len() {
            return MaskedBytes::none(alloc);
        }
        let block = mem::replace(&mut self.rows[place], KeptBlock::ended(alloc));
        if !is_in_use(&self.rows, self.found) {
            match first_kept(&self.rows) {
                Some(found) => self.found = found,
                None => self.rows = Vec::new(alloc),
            }
        }
        let KeptBlock { bytes, .. } = block;
        bytes
    }
}
