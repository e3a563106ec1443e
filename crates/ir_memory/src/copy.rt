//! Cells from one place to another.
ghost use Rattle.std.specs.Prelude.{◌≡◌, ℕ, ◌+◌, ◌<◌, ◌≤◌, ◌^◌, ◌||◌, ◌&&◌, not, OnOk, OnErr, false, true, None, Some, length, slice_index_or, slice_set, slice_range};
ghost use Rattle.ir_memory.specs.Memory as of;
ghost use Rattle.ir_memory.specs.MemoryBlock as block;
ghost use Rattle.ir_memory.specs.declared.kept.KeptBlock.{KeptBlock as Kept};
ghost use Rattle.ir_memory.specs.Seen.{at, all_seen, IsRoom, IsSound, with_copied};
ghost use Rattle.ir_memory.specs.Pointers.Pieces.{with_moved};

use crate::access::BlockPlace;
use crate::masked::MaskedBytes;
use crate::pointers::Pieces;
use crate::table::BlockTable;
use crate::write::clear;
use std::alloc::{AllocError, Global};
use std::mem;

/// Whether two ranges of one block meet and are not equal.
fn overlap(one: BlockPlace, other: BlockPlace, count: usize) -> bool
    ensures { result ≡ of.overlap count (Some one) (Some other) }
{
    let apart = if one.offset < other.offset {
        other.offset - one.offset
    } else {
        one.offset - other.offset
    };
    one.index == other.index && one.offset != other.offset && apart < count
}

/// Whether two ranges of one block meet and are not equal, where they may not.
pub fn meets(may_overlap: bool, one: BlockPlace, other: BlockPlace, count: usize) -> bool
    ensures { result ≡ (not may_overlap && of.overlap count (Some one) (Some other)) }
{
    !may_overlap && overlap(one, other, count)
}

/// Copies cells, as if through a buffer. Where memory is refused, nothing changes; it is asked for only where
/// the source may have pieces.
#[inline(never)]
pub fn copy_cells(
    alloc: Global,
    kept: &mut BlockTable,
    pieces: &mut Pieces,
    target: BlockPlace,
    source: BlockPlace,
    count: usize,
) -> Result<(), AllocError>
    requires target { IsRoom kept.old target count }
    requires source { IsRoom kept.old source count }
    requires sound { (next : ℕ) × IsSound (at pieces.old) kept.old next }
    ensures value { OnOk result (all_seen (at pieces.new) kept.new ≡ of.changed target.index (block.written target.offset (of.cells_at (all_seen (at pieces.old) kept.old) count (Some source))) (all_seen (at pieces.old) kept.old)) }
    ensures err { OnErr result (all_seen (at pieces.new) kept.new ≡ all_seen (at pieces.old) kept.old) }
    ensures sound { (next : ℕ) → IsSound (at pieces.old) kept.old next → IsSound (at pieces.new) kept.new next }
{
    let one = kept.get(source.index);
    let mixed = one.mixed;
    let from = one.start + source.offset as u64;
    let other = kept.get(target.index);
    let was_mixed = other.mixed;
    let to = other.start + target.offset as u64;
    copy_pieces(pieces, mixed, was_mixed, to, from, count as u64)?;
    copy_bytes(alloc, kept, target, source, count, mixed);
    Ok(())
}

/// Copies the pieces of one range of a block to another, each of which may be mixed.
fn copy_pieces(
    pieces: &mut Pieces,
    mixed: bool,
    was_mixed: bool,
    to: u64,
    from: u64,
    count: u64,
) -> Result<(), AllocError>
    requires target { to + count < 2 ^ 64 }
    requires source { from + count < 2 ^ 64 }
    requires unmixed { mixed ≡ false → (q : ℕ) → from ≤ q → q < from + count → at pieces.old q ≡ None }
    requires was_unmixed { was_mixed ≡ false → (q : ℕ) → to ≤ q → q < to + count → at pieces.old q ≡ None }
    ensures copied { OnOk result ((q : ℕ) → at pieces.new q ≡ with_moved to from count (at pieces.old) q) }
    ensures err { OnErr result ((q : ℕ) → at pieces.new q ≡ at pieces.old q) }
{
    if mixed {
        return pieces.copy(to, from, count);
    }
    clear(pieces, was_mixed, to, to + count);
    Ok(())
}

/// Copies the bytes, and marks the target's block where the source's may have pieces.
fn copy_bytes(
    alloc: Global,
    kept: &mut BlockTable,
    target: BlockPlace,
    source: BlockPlace,
    count: usize,
    mixed: bool,
)
    requires target { IsRoom kept.old target count }
    requires source { IsRoom kept.old source count }
    requires whole { (k : ℕ) (d : Kept) → k < length kept.old → length (slice_index_or kept.old k d).bytes ≡ (slice_index_or kept.old k d).size }
    ensures { (d : Kept) → kept.new ≡ slice_set kept.old target.index (with_copied target.offset (slice_range (slice_index_or kept.old source.index d).bytes source.offset (source.offset + count)) mixed (slice_index_or kept.old target.index d)) }
{
    if source.index == target.index {
        let block = kept.get_mut(target.index);
        block.mixed = either(block.mixed, mixed);
        block.bytes.copy_within(target.offset, source.offset, count);
        return;
    }
    let block = kept.get_mut(target.index);
    block.mixed = either(block.mixed, mixed);
    let mut bytes = mem::replace(&mut block.bytes, MaskedBytes::none(alloc));
    let from = kept.get(source.index);
    bytes.copy_from(target.offset, &from.bytes, source.offset, count);
    kept.get_mut(target.index).bytes = bytes;
}

/// Whether one of two holds.
fn either(one: bool, other: bool) -> bool
    ensures { result ≡ (one || other) }
{
    one || other
}
