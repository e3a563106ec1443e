//! Where pages of blocks start, and the search for a block by an address.
ghost use Rattle.std.specs.Prelude.{◌≡◌, ℕ, ◌+◌, ◌<◌, ◌≤◌, IfSome, OnOk, OnErr, List, length, slice_index_or};
ghost use Rattle.ir_memory.specs.Memory as of;
ghost use Rattle.ir_memory.specs.Kept.{IsPlaced};
ghost use Rattle.ir_memory.specs.Seen.{at, all_seen};
ghost use Rattle.ir_memory.specs.Find.{AreStarts, HasOnly, IsLast, IsSplit, noted};

use crate::page::ROWS;
use crate::pointers::Pieces;
use crate::table::BlockTable;
use std::alloc::AllocError;

/// How many pages start at or below an address.
fn pages_below(starts: &Vec<u64>, address: u64) -> usize
    requires { (p q : ℕ) → p ≤ q → q < length starts.now.items → slice_index_or starts.now.items p 0 ≤ slice_index_or starts.now.items q 0 }
    ensures { IsSplit starts.now.items address result }
{
    starts.as_slice().partition_point(|start| *start <= address)
}

/// The last live block from one number up to another that begins at or below an address.
fn last_begun(kept: &BlockTable, from: usize, to: usize, address: u64) -> Option<usize>
    requires { to ≤ length kept.now }
    ensures { IsLast kept.now from to address result }
{
    let mut left = to;
    while left > from {
        left -= 1;
        if kept.get(left).has_begun(address) {
            return Some(left);
        }
    }
    None
}

/// The one live block that can have an address in it or at its end: of the last page that starts at or below the address
/// the last that begins there. Pieces serve the clauses.
#[inline(never)]
pub fn block_at(
    kept: &BlockTable,
    _pieces: &Pieces,
    starts: &Vec<u64>,
    address: u64,
) -> Option<usize>
    requires starts { AreStarts starts.now.items (all_seen (at _pieces.now) kept.now) }
    requires placed { (next : ℕ) × IsPlaced of.first_address (all_seen (at _pieces.now) kept.now) next }
    ensures within { IfSome result (λ i. i < length kept.now) }
    ensures only { HasOnly (all_seen (at _pieces.now) kept.now) address result }
{
    let count = kept.len();
    let below = pages_below(starts, address);
    if below == 0 {
        return None;
    }
    let from = (below - 1) * ROWS;
    let to = from + (count - from).min(ROWS);
    last_begun(kept, from, to, address)
}

/// Keeps where a page starts, if the block of that number is the first of one.
pub fn note(starts: &mut Vec<u64>, index: usize, start: u64) -> Result<(), AllocError>
    ensures noted { OnOk result (starts.new.items ≡ noted index start starts.old.items) }
    ensures err { OnErr result (starts.new.items ≡ starts.old.items) }
{
    if index % ROWS == 0 {
        starts.push(start)?;
    }
    Ok(())
}

/// Takes back what was kept of the block of that number.
pub fn forget(starts: &mut Vec<u64>, index: usize)
    ensures { (before : List ℕ) (start : ℕ) → starts.old.items ≡ noted index start before → starts.new.items ≡ before }
{
    if index % ROWS == 0 {
        let _start = starts.pop();
    }
}
