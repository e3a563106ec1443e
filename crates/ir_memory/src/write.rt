//! What stores, fills and copies write.
ghost use Rattle.std.specs.Prelude.{◌≡◌, ℕ, ◌+◌, ◌<◌, ◌≤◌, ◌^◌, OnOk, OnErr, IsOk, false, true, None, Some, replicate, length};
ghost use Rattle.ir_memory.specs.Memory as of;
ghost use Rattle.ir_memory.specs.MemoryBlock as block;
ghost use Rattle.ir_memory.specs.Cell as cell;
ghost use Rattle.ir_memory.specs.declared.cell.Cell.TheVariants as the;
ghost use Rattle.ir_memory.specs.Seen.{at, all_seen, IsRoom, IsSound};
ghost use Rattle.ir_memory.specs.Pointers.Pieces.{without};

use crate::access::BlockPlace;
use crate::pointers::Pieces;
use crate::table::BlockTable;
use ir_eval::Pointer;
use std::alloc::AllocError;

/// Removes the pieces of a range.
#[cold]
#[inline(never)]
fn clear_pieces(pieces: &mut Pieces, from: u64, to: u64)
    requires { from ≤ to }
    ensures { (q : ℕ) → at pieces.new q ≡ without from to (at pieces.old) q }
{
    pieces.clear(from, to);
}

/// Removes the pieces of a range of a block, which may be mixed.
#[inline(always)]
pub fn clear(pieces: &mut Pieces, mixed: bool, from: u64, to: u64)
    requires order { from ≤ to }
    requires unmixed { mixed ≡ false → (q : ℕ) → from ≤ q → q < to → at pieces.old q ≡ None }
    ensures { (q : ℕ) → at pieces.new q ≡ without from to (at pieces.old) q }
{
    if mixed {
        clear_pieces(pieces, from, to);
    }
}

/// Writes the least bytes of a number at a place.
#[inline(always)]
pub fn write_number(
    kept: &mut BlockTable,
    pieces: &mut Pieces,
    place: BlockPlace,
    count: usize,
    number: u128,
)
    requires count { count ≤ 16 }
    requires room { IsRoom kept.old place count }
    requires sound { (next : ℕ) × IsSound (at pieces.old) kept.old next }
    ensures value { all_seen (at pieces.new) kept.new ≡ of.changed place.index (block.written place.offset (cell.bytes count number)) (all_seen (at pieces.old) kept.old) }
    ensures sound { (next : ℕ) → IsSound (at pieces.old) kept.old next → IsSound (at pieces.new) kept.new next }
{
    let block = kept.get_mut(place.index);
    let from = block.start + place.offset as u64;
    clear(pieces, block.mixed, from, from + count as u64);
    block.bytes.write_number(place.offset, count, number);
}

/// Writes one byte in so many places.
#[inline(never)]
pub fn write_many(
    kept: &mut BlockTable,
    pieces: &mut Pieces,
    place: BlockPlace,
    count: usize,
    byte: u8,
)
    requires room { IsRoom kept.old place count }
    requires sound { (next : ℕ) × IsSound (at pieces.old) kept.old next }
    ensures value { all_seen (at pieces.new) kept.new ≡ of.changed place.index (block.written place.offset (replicate count (the.Byte byte))) (all_seen (at pieces.old) kept.old) }
    ensures sound { (next : ℕ) → IsSound (at pieces.old) kept.old next → IsSound (at pieces.new) kept.new next }
{
    let block = kept.get_mut(place.index);
    let from = block.start + place.offset as u64;
    clear(pieces, block.mixed, from, from + count as u64);
    block.bytes.fill(place.offset, count, byte);
}

/// Writes poison in so many places.
#[inline(never)]
pub fn write_poison(kept: &mut BlockTable, pieces: &mut Pieces, place: BlockPlace, count: usize)
    requires room { IsRoom kept.old place count }
    requires sound { (next : ℕ) × IsSound (at pieces.old) kept.old next }
    ensures value { all_seen (at pieces.new) kept.new ≡ of.changed place.index (block.written place.offset (replicate count the.Poison)) (all_seen (at pieces.old) kept.old) }
    ensures sound { (next : ℕ) → IsSound (at pieces.old) kept.old next → IsSound (at pieces.new) kept.new next }
{
    let block = kept.get_mut(place.index);
    let from = block.start + place.offset as u64;
    clear(pieces, block.mixed, from, from + count as u64);
    block.bytes.poison(place.offset, count);
}

/// Writes a pointer at a place. Where memory is refused, nothing changes.
#[inline(never)]
pub fn write_pointer(
    kept: &mut BlockTable,
    pieces: &mut Pieces,
    place: BlockPlace,
    pointer: Pointer,
) -> Result<(), AllocError>
    requires room { IsRoom kept.old place 8 }
    requires sound { (next : ℕ) × IsSound (at pieces.old) kept.old next }
    ensures value { OnOk result (all_seen (at pieces.new) kept.new ≡ of.changed place.index (block.written place.offset (cell.pieces pointer)) (all_seen (at pieces.old) kept.old)) }
    ensures err { OnErr result (all_seen (at pieces.new) kept.new ≡ all_seen (at pieces.old) kept.old) }
    ensures sound { (next : ℕ) → IsSound (at pieces.old) kept.old next → IsSound (at pieces.new) kept.new next }
{
    let block = kept.get_mut(place.index);
    pieces.place(block.start + place.offset as u64, pointer)?;
    block.mixed = true;
    block
        .bytes
        .write_number(place.offset, 8, u128::from(pointer.address));
    Ok(())
}
