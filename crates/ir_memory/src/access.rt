//! The checks of an access, in their order.
ghost use Rattle.std.specs.Prelude.{◌≡◌, ℕ, ◌+◌, ◌%◌, ◌<◌, ◌≤◌, ◌&&◌, not, nat_eq, is_some, Bool, IfSome, IfOk, Ok, Some, length, slice_index_or};
ghost use Rattle.ir_eval.specs.declared.value.Scalar.TheVariants.{Ptr};
ghost use Rattle.ir_memory.specs.Memory as of;
ghost use Rattle.ir_memory.specs.Kept.{IsPlaced};
ghost use Rattle.ir_memory.specs.Given.{IsKnown, IsAddress, IsAlignment};
ghost use Rattle.ir_memory.specs.Seen.{at, all_seen, IsLiveAt, IsRoom, IsSound};
ghost use Rattle.ir_memory.specs.declared.kept.KeptBlock.{KeptBlock as Kept};
ghost use Rattle.ir_memory.specs.MemoryBlock.{is_constant};
ghost use Rattle.ir_memory.specs.Find.{AreStarts, HasOnly, IsOnly, place_there};

use crate::BlockKind;
use crate::kept::KeptBlock;
use crate::pointers::Pieces;
use crate::starts::block_at;
use crate::table::BlockTable;
use ir_eval::{Pointer, Scalar};
use ir_tables::UndefinedKind;

/// Where the first byte of an access is: the number of its block, and how far it lies behind the start.
#[derive(Clone, Copy)]
pub struct BlockPlace {
    pub index: usize,
    pub offset: usize,
}

/// What an access asks: how many bytes, at which alignment, and whether it writes to constants too.
#[derive(Clone, Copy)]
pub struct Request {
    pub count: u64,
    pub align: u32,
    pub writes: bool,
}

/// The live block of that kind that a pointer starts.
pub fn started(
    kept: &BlockTable,
    _pieces: &Pieces,
    starts: &Vec<u64>,
    pointer: Scalar,
    kind: BlockKind,
) -> Option<usize>
    requires starts { AreStarts starts.now.items (all_seen (at _pieces.now) kept.now) }
    requires known { IsAddress (all_seen (at _pieces.now) kept.now) pointer }
    requires placed { (next : ℕ) × IsPlaced of.first_address (all_seen (at _pieces.now) kept.now) next }
    ensures value { result ≡ of.started (all_seen (at _pieces.now) kept.now) pointer kind }
    ensures live { IfSome result (IsLiveAt kept.now) }
    ensures within { IfSome result (λ i. i < length kept.now) }
{
    let Scalar::Ptr(pointer) = pointer else {
        return None;
    };
    let index = candidate(kept, _pieces, starts, pointer)?;
    if kept.get(index).starts(pointer.address, kind) {
        Some(index)
    } else {
        None
    }
}

/// The one block that a pointer can speak of: its own, or the one that has its address. Pieces serve the clauses.
#[inline(always)]
fn candidate(
    kept: &BlockTable,
    _pieces: &Pieces,
    starts: &Vec<u64>,
    pointer: Pointer,
) -> Option<usize>
    requires starts { AreStarts starts.now.items (all_seen (at _pieces.now) kept.now) }
    requires known { IsKnown (all_seen (at _pieces.now) kept.now) pointer }
    requires placed { (next : ℕ) × IsPlaced of.first_address (all_seen (at _pieces.now) kept.now) next }
    ensures within { IfSome result (λ i. i < length kept.now) }
    ensures only { IsOnly (all_seen (at _pieces.now) kept.now) pointer.block pointer.address result }
{
    match pointer.block {
        Some(index) => Some(index as usize),
        None => block_at(kept, _pieces, starts, pointer.address),
    }
}

/// Whether the pointer's own block has ended.
#[inline(always)]
fn has_ended(block: &KeptBlock, pointer: Pointer) -> bool
    ensures { result ≡ (not block.now.live && is_some pointer.block) }
{
    !block.live && pointer.block.is_some()
}

/// Whether the access writes to a sealed constant.
#[inline(always)]
fn is_fixed(block: &KeptBlock, sealed: bool, writes: bool) -> bool
    ensures { result ≡ (writes && sealed && is_constant block.now.kind) }
{
    writes && sealed && block.is_constant()
}

#[inline(always)]
fn is_aligned(address: u64, align: u32) -> bool
    requires { IsAlignment align }
    ensures { result ≡ nat_eq (address % align) 0 }
{
    address & (u64::from(align) - 1) == 0
}

/// The place of an access of at least one byte, or the first check that fails.
#[inline(always)]
pub fn access(
    kept: &BlockTable,
    _pieces: &Pieces,
    starts: &Vec<u64>,
    sealed: bool,
    asked: Request,
    address: Scalar,
) -> Result<BlockPlace, UndefinedKind>
    requires starts { AreStarts starts.now.items (all_seen (at _pieces.now) kept.now) }
    requires known { IsAddress (all_seen (at _pieces.now) kept.now) address }
    requires placed { (next : ℕ) × IsPlaced of.first_address (all_seen (at _pieces.now) kept.now) next }
    requires some { 1 ≤ asked.count }
    requires align { IsAlignment asked.align }
    ensures value { (next : ℕ) → of.access (record { list = all_seen (at _pieces.now) kept.now; next = next; sealed = sealed }) asked.count asked.align asked.writes address ≡ place_there result }
    ensures within { IfOk result (λ p. p.index < length kept.now) }
    ensures holds { IfOk result (λ p. (d : Kept) → p.offset + asked.count ≤ (slice_index_or kept.now p.index d).size) }
    ensures live { IfOk result (λ p. IsLiveAt kept.now p.index) }
{
    let Scalar::Ptr(pointer) = address else {
        return Err(UndefinedKind::PoisonAddress);
    };
    let Some(index) = candidate(kept, _pieces, starts, pointer) else {
        return Err(UndefinedKind::OutsideBlock);
    };
    let block = kept.get(index);
    if has_ended(block, pointer) {
        return Err(UndefinedKind::EndedBlock);
    }
    if !block.is_home(pointer.address, asked.count) {
        return Err(UndefinedKind::OutsideBlock);
    }
    if is_fixed(block, sealed, asked.writes) {
        return Err(UndefinedKind::WriteToConstant);
    }
    if !is_aligned(pointer.address, asked.align) {
        return Err(UndefinedKind::Misaligned);
    }
    Ok(BlockPlace {
        index,
        offset: (pointer.address - block.start) as usize,
    })
}

/// The place of an access of at least one byte that is in order, where few steps tell that: in a block of the pointer's own that is no
/// constant to be written and is known to have no poison. None says nothing of the access. Pieces serve the clauses.
#[inline(always)]
pub fn plain_access(
    kept: &BlockTable,
    _pieces: &Pieces,
    asked: Request,
    pointer: Pointer,
) -> Option<BlockPlace>
    requires sound { (next : ℕ) × IsSound (at _pieces.now) kept.now next }
    requires known { IsKnown (all_seen (at _pieces.now) kept.now) pointer }
    requires some { 1 ≤ asked.count }
    requires align { IsAlignment asked.align }
    ensures value { IfSome result (λ p. (next : ℕ) (sealed : Bool) → of.access (record { list = all_seen (at _pieces.now) kept.now; next = next; sealed = sealed }) asked.count asked.align asked.writes (Ptr pointer) ≡ Ok (Some p)) }
    ensures room { IfSome result (λ p. IsRoom kept.now p asked.count) }
{
    let index = pointer.block?;
    let block = kept.row(index as usize)?;
    let offset = block.offset_of(pointer.address, asked.count)?;
    if !is_aligned(pointer.address, asked.align) {
        return None;
    }
    if is_fixed(block, true, asked.writes) {
        return None;
    }
    if !block.bytes.is_clean() {
        return None;
    }
    Some(BlockPlace {
        index: index as usize,
        offset,
    })
}
