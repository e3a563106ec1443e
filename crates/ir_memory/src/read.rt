//! What a load gives.
ghost use Rattle.std.specs.Prelude.{◌≡◌, ℕ, ◌+◌, ◌<◌, ◌≤◌, ◌^◌, true, false, None, Some, IsSome, slice_range, slice_index_or, length};
ghost use Rattle.ir_memory.specs.Memory as of;
ghost use Rattle.ir_memory.specs.Cell as cell;
ghost use Rattle.ir_memory.specs.declared.leaf.Leaf.TheVariants.{Ptr};
ghost use Rattle.ir_memory.specs.Given.{IsLeaf};
ghost use Rattle.ir_memory.specs.Seen as seen;
ghost use Rattle.ir_memory.specs.Seen.{at, all_seen, IsRoom, IsSound};

use crate::Leaf;
use crate::access::BlockPlace;
use crate::cell::{Cell, read, value_of};
use crate::kept::KeptBlock;
use crate::pointers::Pieces;
use crate::table::BlockTable;
use ir_eval::Scalar;

/// The leaf at a place.
#[inline(always)]
pub fn read_at(kept: &BlockTable, pieces: &Pieces, place: BlockPlace, leaf: Leaf) -> Scalar
    requires leaf { IsLeaf leaf }
    requires room { IsRoom kept.now place (cell.size leaf) }
    requires sound { (next : ℕ) × IsSound (at pieces.now) kept.now next }
    ensures { result ≡ cell.read leaf (of.cells_at (all_seen (at pieces.now) kept.now) (cell.size leaf) (Some place)) }
{
    let block = kept.get(place.index);
    let from = block.start + place.offset as u64;
    let count = leaf.size();
    if may_point(leaf, block.mixed) {
        return read_pointer(block, pieces, place.offset);
    }
    if has_pieces(pieces, block.mixed, from, from + count as u64) {
        return read_pieces(block, pieces, place.offset, leaf);
    }
    value_of(leaf, block.bytes.number(place.offset, count))
}

/// Whether a leaf is a pointer that is read of a mixed block.
#[inline(always)]
fn may_point(leaf: Leaf, mixed: bool) -> bool
    ensures { result ≡ true → leaf ≡ Ptr }
{
    match leaf {
        Leaf::Ptr => mixed,
        Leaf::Int(_) => false,
    }
}

/// The pointer at a place where pieces may stand, most often those of one pointer in order.
#[inline(never)]
fn read_pointer(block: &KeptBlock, pieces: &Pieces, offset: usize) -> Scalar
    requires within { offset + 8 ≤ length block.now.bytes }
    requires small { block.now.start + (offset + 8) < 2 ^ 64 }
    ensures { result ≡ cell.read Ptr (slice_range (seen.cells (at pieces.now) block.now.start block.now.bytes) offset (offset + 8)) }
{
    if let Some(pointer) = pieces.pointer(block.start + offset as u64) {
        return Scalar::Ptr(pointer);
    }
    read_pieces(block, pieces, offset, Leaf::Ptr)
}

/// Whether a piece stands in a range.
#[cold]
#[inline(never)]
fn meets_pieces(pieces: &Pieces, from: u64, to: u64) -> bool
    requires { from ≤ to }
    ensures none { result ≡ false → (q : ℕ) → from ≤ q → q < to → at pieces.now q ≡ None }
    ensures some { result ≡ true → (q : ℕ) × (from ≤ q) × (q < to) × IsSome (at pieces.now q) }
{
    !pieces.is_clear(from, to)
}

/// Whether a piece stands in a range of a block, which may be mixed.
#[inline(always)]
pub fn has_pieces(pieces: &Pieces, mixed: bool, from: u64, to: u64) -> bool
    requires order { from ≤ to }
    requires unmixed { mixed ≡ false → (q : ℕ) → from ≤ q → q < to → at pieces.now q ≡ None }
    ensures none { result ≡ false → (q : ℕ) → from ≤ q → q < to → at pieces.now q ≡ None }
    ensures some { result ≡ true → (q : ℕ) × (from ≤ q) × (q < to) × IsSome (at pieces.now q) }
{
    mixed && meets_pieces(pieces, from, to)
}

/// The leaf at a place where pieces may stand.
#[inline(never)]
fn read_pieces(block: &KeptBlock, pieces: &Pieces, offset: usize, leaf: Leaf) -> Scalar
    requires leaf { IsLeaf leaf }
    requires within { offset + cell.size leaf ≤ length block.now.bytes }
    requires small { block.now.start + (offset + cell.size leaf) < 2 ^ 64 }
    ensures { result ≡ cell.read leaf (slice_range (seen.cells (at pieces.now) block.now.start block.now.bytes) offset (offset + cell.size leaf)) }
{
    let mut cells = [Cell::Poison; 16];
    let count = leaf.size();
    for k in 0..count {
        cells[k] = cell_at(block, pieces, offset + k);
    }
    read(leaf, &cells[..count])
}

/// The cell at a place of a block.
fn cell_at(block: &KeptBlock, pieces: &Pieces, offset: usize) -> Cell
    requires within { offset < length block.now.bytes }
    requires small { block.now.start + offset < 2 ^ 64 }
    ensures { result ≡ seen.over (at pieces.now (block.now.start + offset)) (slice_index_or block.now.bytes offset None) }
{
    if let Some(piece) = pieces.get(block.start + offset as u64) {
        return Cell::Piece(piece.pointer, piece.place);
    }
    match block.bytes.get(offset) {
        Some(byte) => Cell::Byte(byte),
        None => Cell::Poison,
    }
}
