//! All blocks of a run.
ghost use Rattle.std.specs.Prelude.{◌≡◌, ◌≢◌, ℕ, ◌+◌, ◌*◌, ◌<◌, ◌≤◌, ◌^◌, ◌↔◌, IfOk, IfSome, OnOk, OnErr, drop, length, true, false, IsOk, slice_index, slice_set, Some, Ok, Err};
ghost use Rattle.ir_eval.specs.declared.value.Scalar.TheVariants as scalar;
ghost use Rattle.ir_memory.specs.declared.leaf.Leaf.TheVariants as leaves;
ghost use Rattle.ir_memory.specs.Memory as of;
ghost use Rattle.ir_memory.specs.Memory.{HasFreeAddresses, live_bytes, round_up};
ghost use Rattle.ir_memory.specs.Kept.{IsPlaced, AreKnown};
ghost use Rattle.ir_memory.specs.MemoryBlock as block;
ghost use Rattle.ir_memory.specs.Given.{IsKnown, IsAddress, IsAlignment, IsLeaf, Fits, HasKnown, CanEnd};
ghost use Rattle.ir_memory.specs.Answer.{Answers, NeedsNone, IsInteger, Keeps};
ghost use Rattle.ir_memory.specs.Seen.{at, all_seen, IsLiveAt, IsRoom, IsSound};
ghost use Rattle.ir_memory.specs.Cell.{size, leaf_cells};
ghost use Rattle.ir_memory.specs.Plain.{LoadsBytes};

use crate::access::{BlockPlace, Request, access, plain_access, started};
use crate::copy::{copy_cells, meets};
use crate::kept::KeptBlock;
use crate::masked::MaskedBytes;
use crate::pointers::Pieces;
use crate::read::{has_pieces, read_at};
use crate::spare::Spare;
use crate::starts::{forget, note};
use crate::table::BlockTable;
use crate::write::{clear, write_many, write_number, write_pointer, write_poison};
use crate::{BlockKind, Leaf, MemoryFault};
use ir_eval::{Pointer, Scalar};
use ir_tables::UndefinedKind;
use std::alloc::{AllocError, Global};
use std::marker::Model;

/// How many bytes live blocks may have together.
pub const BYTE_LIMIT: u64 = 268_435_456;

/// The first address that a block may have.
pub const FIRST_ADDRESS: u64 = 65_536;

/// How many addresses are left free behind a block.
const GAP: u64 = 16;

/// The blocks of a run, live or ended, in the order of their addresses, and the pieces of pointers in them.
/// Pointers name a block by its number, counted from 0.
#[derive(Drop)]
pub struct Memory {
    alloc: Global,
    kept: BlockTable,
    pieces: Pieces,
    spare: Spare,
    starts: Vec<u64>,
    next: u64,
    sealed: bool,
    live: u64,
}

impl Model for Memory {
    ghost use Rattle.ir_memory.specs.Memory.{Blocks};
    ghost use Rattle.ir_memory.specs.Kept.{IsKept};
    ghost use Rattle.ir_memory.specs.Find.{AreStarts, AreBefore};
    ghost use Rattle.ir_memory.specs.Seen.{at, all_seen, IsSound};

    ghost Value = { Blocks };

    ghost view = { λ m. record { list = all_seen (at m.pieces) m.kept; next = m.next; sealed = m.sealed } };

    ghost invariant = { λ m. IsKept (all_seen (at m.pieces) m.kept) m.next m.live × AreStarts m.starts.items (all_seen (at m.pieces) m.kept) × IsSound (at m.pieces) m.kept m.next × AreBefore m.starts.items m.next };
}

impl Memory {
    /// No blocks. The first one may start at 65,536.
    pub fn new(alloc: Global) -> Memory
        ensures { result ≡ of.no_blocks }
    {
        Memory {
            alloc,
            kept: BlockTable::new(alloc),
            pieces: Pieces::new(alloc),
            spare: Spare::new(alloc),
            starts: Vec::new(alloc),
            next: FIRST_ADDRESS,
            sealed: false,
            live: 0,
        }
    }

    /// How many bytes the live blocks have together: at most 2^28.
    pub fn live_bytes(&self) -> u64
        ensures value { result ≡ live_bytes self.now.list }
        ensures limit { result ≤ of.byte_limit }
        ensures placed { IsPlaced of.first_address self.now.list self.now.next }
        ensures known { AreKnown (length self.now.list) self.now.list }
        ensures next { self.now.next < of.addresses_end }
    {
        self.live
    }

    /// From now on no constant is written.
    pub fn seal_constants(&mut self)
        ensures { self.new ≡ record self.old { sealed = true } }
    {
        self.sealed = true;
    }

    /// A new live block of so many zeros, at the next address that is a multiple of the alignment. It is
    /// refused exactly where live bytes would pass 2^28.
    pub fn add_block(
        &mut self,
        size: u64,
        align: u32,
        kind: BlockKind,
    ) -> Result<Pointer, MemoryFault>
        requires align { IsAlignment align }
        requires next { HasFreeAddresses self.old }
        ensures added { OnOk result (self.new ≡ of.added size align kind self.old) }
        ensures pointer { IfOk result (λ p. p ≡ record { block = Some (length self.old.list); address = round_up self.old.next align }) }
        ensures limit { (result ≡ Err MemoryFault.MemoryLimit) ↔ (of.byte_limit < live_bytes self.old.list + size) }
        ensures defined { (kind : UndefinedKind) → result ≢ Err (MemoryFault.Undefined kind) }
        ensures err { OnErr result (self.new ≡ self.old) }
        ensures grows { self.old.next ≤ self.new.next }
        ensures growth { self.new.next ≤ self.old.next + of.reach }
    {
        if size > BYTE_LIMIT - self.live {
            return Err(MemoryFault::MemoryLimit);
        }
        let start = round_up(self.next, align);
        let index = self.kept.len();
        let bytes = self.spare.zeros(self.alloc, size as usize)?;
        let block = KeptBlock::new(start, size, kind, bytes);
        note(&mut self.starts, index, start)?;
        if let Err(fault) = self.kept.push(block) {
            forget(&mut self.starts, index);
            return Err(fault.into());
        }
        self.next = start + size + GAP;
        self.live += size;
        Ok(Pointer {
            block: Some(index as u64),
            address: start,
        })
    }

    /// Ends the live block of that kind, Stack or Heap, that starts at the pointer. It is refused exactly where
    /// there is none.
    pub fn end_block(&mut self, pointer: Scalar, kind: BlockKind) -> Result<(), MemoryFault>
        requires pointer { IsAddress self.old.list pointer }
        requires kind { CanEnd kind }
        ensures answer { Answers (of.ended pointer kind self.old) self.old self.new result }
        ensures kept { Keeps self.old self.new }
        ensures memory { NeedsNone result }
    {
        let Some(index) = started(&self.kept, &self.pieces, &self.starts, pointer, kind) else {
            return Err(MemoryFault::Undefined(UndefinedKind::BadFree));
        };
        let block = self.kept.get(index);
        self.live -= block.size;
        let bytes = end(&mut self.kept, &mut self.pieces, index);
        self.spare.keep(bytes);
        Ok(())
    }

    /// The start and the end of the pointer's live block, and None exactly where the pointer has no block or
    /// its block has ended. The first address of all is 65,536.
    #[inline(always)]
    pub fn bounds(&self, pointer: Pointer) -> Option<(u64, u64)>
        requires { IsKnown self.now.list pointer }
        ensures value { result ≡ of.bounds_at self.now.list pointer.block }
        ensures order { IfSome result (λ p. (of.first_address ≤ p.0) × (p.0 ≤ p.1) × (p.1 ≤ self.now.next)) }
    {
        let index = pointer.block?;
        let block = self.kept.get(index as usize);
        if block.live {
            Some((block.start, block.start + block.size))
        } else {
            None
        }
    }

    /// The leaf at an address (LangRef, "load"). It is refused exactly where the access is undefined.
    #[inline(always)]
    pub fn load(&self, address: Scalar, leaf: Leaf, align: u32) -> Result<Scalar, UndefinedKind>
        requires address { IsAddress self.now.list address }
        requires leaf { IsLeaf leaf }
        requires align { IsAlignment align }
        ensures value { result ≡ of.loaded self.now address leaf align }
        ensures fits { IfOk result (Fits leaf) }
        ensures known { IfOk result (HasKnown self.now.list) }
    {
        let asked = Request {
            count: leaf.size() as u64,
            align,
            writes: false,
        };
        let place = access(
            &self.kept,
            &self.pieces,
            &self.starts,
            self.sealed,
            asked,
            address,
        )?;
        Ok(read_at(&self.kept, &self.pieces, place, leaf))
    }

    /// The bytes from a pointer on up to the end of its block, as they lie there: loads of one byte at a time give the same. None
    /// where the pointer has no block, is not in its block, or the block has ended; and where the block may hold poison or pieces of
    /// pointers.
    #[inline(always)]
    pub fn plain_bytes(&self, pointer: Pointer) -> Option<&[u8]>
        requires { IsKnown self.now.list pointer }
        ensures loads { IfSome result (λ bytes. LoadsBytes self.now pointer bytes.now) }
        ensures within { IfSome result (λ bytes. pointer.address + length bytes.now < 2 ^ 64) }
        ensures few { IfSome result (λ bytes. length bytes.now ≤ live_bytes self.now.list) }
    {
        let index = pointer.block?;
        let block = self.kept.get(index as usize);
        if block.mixed {
            return None;
        }
        if !block.is_home(pointer.address, 1) {
            return None;
        }
        let bytes = block.bytes.plain()?;
        let offset = (pointer.address - block.start) as usize;
        Some(bytes_from(bytes, offset))
    }

    /// Writes a leaf at an address (LangRef, "store"). It is refused exactly where the access is undefined.
    #[tactic(auto, using(crate::proofs::Known::count_steps))]
    #[inline(always)]
    pub fn store(
        &mut self,
        address: Scalar,
        leaf: Leaf,
        align: u32,
        value: Scalar,
    ) -> Result<(), MemoryFault>
        requires address { IsAddress self.old.list address }
        requires leaf { IsLeaf leaf }
        requires align { IsAlignment align }
        requires fits { Fits leaf value }
        requires known { HasKnown self.old.list value }
        ensures answer { Answers (of.stored address leaf align value self.old) self.old self.new result }
        ensures kept { Keeps self.old self.new }
        ensures memory { IsInteger leaf → NeedsNone result }
        ensures back { OnOk result (of.loaded self.new address leaf align ≡ Ok value) }
    {
        let asked = Request {
            count: leaf.size() as u64,
            align,
            writes: true,
        };
        let place = access(
            &self.kept,
            &self.pieces,
            &self.starts,
            self.sealed,
            asked,
            address,
        )?;
        write_leaf(&mut self.kept, &mut self.pieces, place, leaf, value)?;
        Ok(())
    }

    /// What `load` gives of an integer of so many bytes, where few steps tell it: the pointer has a block, no poison is known in it,
    /// and no piece of a pointer stands among the bytes. None says nothing of the load.
    #[inline(always)]
    pub fn load_plain(&self, pointer: Pointer, count: usize, align: u32) -> Option<u128>
        requires pointer { IsKnown self.now.list pointer }
        requires some { 1 ≤ count }
        requires few { count ≤ 8 }
        requires align { IsAlignment align }
        ensures value { IfSome result (λ n. of.loaded self.now (scalar.Ptr pointer) (leaves.Int (8 * count)) align ≡ Ok (scalar.Int n)) }
        ensures fits { IfSome result (λ n. n < 256 ^ count) }
    {
        let asked = Request {
            count: count as u64,
            align,
            writes: false,
        };
        let place = plain_access(&self.kept, &self.pieces, asked, pointer)?;
        let block = self.kept.get(place.index);
        let from = block.start + place.offset as u64;
        if has_pieces(&self.pieces, block.mixed, from, from + count as u64) {
            return None;
        }
        block.bytes.number(place.offset, count)
    }

    /// Writes an integer of so many bytes as `store` does, where few steps tell the store: the pointer has a block, which is no
    /// constant, and no poison is known in it. Where it answers false, it says nothing of the store, and memory is unchanged.
    #[tactic(auto, using(crate::proofs::Known::count_steps))]
    #[inline(always)]
    pub fn store_plain(&mut self, pointer: Pointer, count: usize, align: u32, number: u128) -> bool
        requires pointer { IsKnown self.old.list pointer }
        requires some { 1 ≤ count }
        requires few { count ≤ 8 }
        requires align { IsAlignment align }
        ensures stored { result ≡ true → of.stored (scalar.Ptr pointer) (leaves.Int (8 * count)) align (scalar.Int number) self.old ≡ Ok self.new }
        ensures unchanged { result ≡ false → self.new ≡ self.old }
        ensures kept { Keeps self.old self.new }
    {
        let asked = Request {
            count: count as u64,
            align,
            writes: true,
        };
        let Some(place) = plain_access(&self.kept, &self.pieces, asked, pointer) else {
            return false;
        };
        write_number(&mut self.kept, &mut self.pieces, place, count, number);
        true
    }

    /// Writes one byte at so many addresses. It is refused exactly where the access is undefined.
    #[tactic(auto, using(crate::proofs::Known::count_steps))]
    pub fn fill(&mut self, to: Scalar, byte: u8, count: u64) -> Result<(), MemoryFault>
        requires { IsAddress self.old.list to }
        ensures answer { Answers (of.filled to byte count self.old) self.old self.new result }
        ensures kept { Keeps self.old self.new }
        ensures memory { NeedsNone result }
    {
        let Scalar::Ptr(_) = to else {
            return Err(MemoryFault::Undefined(UndefinedKind::PoisonAddress));
        };
        if count == 0 {
            return Ok(());
        }
        let asked = Request {
            count,
            align: 1,
            writes: true,
        };
        let place = access(
            &self.kept,
            &self.pieces,
            &self.starts,
            self.sealed,
            asked,
            to,
        )?;
        write_many(
            &mut self.kept,
            &mut self.pieces,
            place,
            count as usize,
            byte,
        );
        Ok(())
    }

    /// Copies so many cells as if through a buffer; a copy of none does nothing. The source is judged before the
    /// target, and ranges that meet and are not equal last, unless they may.
    #[tactic(auto, using(crate::proofs::Known::count_steps))]
    pub fn copy(
        &mut self,
        to: Scalar,
        from: Scalar,
        count: u64,
        may_overlap: bool,
    ) -> Result<(), MemoryFault>
        requires to { IsAddress self.old.list to }
        requires from { IsAddress self.old.list from }
        ensures answer { Answers (of.copied to from count may_overlap self.old) self.old self.new result }
        ensures kept { Keeps self.old self.new }
    {
        if count == 0 {
            return Ok(());
        }
        let reading = Request {
            count,
            align: 1,
            writes: false,
        };
        let source = access(
            &self.kept,
            &self.pieces,
            &self.starts,
            self.sealed,
            reading,
            from,
        )?;
        let writing = Request {
            writes: true,
            ..reading
        };
        let target = access(
            &self.kept,
            &self.pieces,
            &self.starts,
            self.sealed,
            writing,
            to,
        )?;
        if meets(may_overlap, source, target, count as usize) {
            return Err(MemoryFault::Undefined(UndefinedKind::Overlap));
        }
        copy_cells(
            self.alloc,
            &mut self.kept,
            &mut self.pieces,
            target,
            source,
            count as usize,
        )?;
        Ok(())
    }
}

/// The bytes behind so many.
#[inline(always)]
fn bytes_from(bytes: &[u8], offset: usize) -> &[u8]
    requires { offset ≤ length bytes.now }
    ensures value { result.now ≡ drop offset bytes.now }
    ensures fits { (k : ℕ) → slice_index bytes.now k < 256 }
{
    &bytes[offset..]
}

/// Writes a leaf at a place. Where memory is refused, nothing changes; it is asked for only by pointers.
#[inline(always)]
fn write_leaf(
    kept: &mut BlockTable,
    pieces: &mut Pieces,
    place: BlockPlace,
    leaf: Leaf,
    value: Scalar,
) -> Result<(), AllocError>
    requires leaf { IsLeaf leaf }
    requires value { Fits leaf value }
    requires room { IsRoom kept.old place (size leaf) }
    requires sound { (next : ℕ) × IsSound (at pieces.old) kept.old next }
    ensures value { OnOk result (all_seen (at pieces.new) kept.new ≡ of.changed place.index (block.written place.offset (leaf_cells leaf value)) (all_seen (at pieces.old) kept.old)) }
    ensures err { OnErr result (all_seen (at pieces.new) kept.new ≡ all_seen (at pieces.old) kept.old) }
    ensures sound { (next : ℕ) → IsSound (at pieces.old) kept.old next → IsSound (at pieces.new) kept.new next }
    ensures memory { IsInteger leaf → IsOk result }
{
    let count = leaf.size();
    match value {
        Scalar::Poison => write_poison(kept, pieces, place, count),
        Scalar::Int(number) => write_number(kept, pieces, place, count, number),
        Scalar::Ptr(pointer) => return write_pointer(kept, pieces, place, pointer),
    }
    Ok(())
}

/// Ends a live block: the pieces in it are given up, and what it had of bytes comes back.
fn end(kept: &mut BlockTable, pieces: &mut Pieces, index: usize) -> MaskedBytes
    requires index { index < length kept.old }
    requires live { IsLiveAt kept.old index }
    requires sound { (next : ℕ) × IsSound (at pieces.old) kept.old next }
    ensures value { all_seen (at pieces.new) kept.new ≡ slice_set (all_seen (at pieces.old) kept.old) index block.gone }
    ensures sound { (next : ℕ) → IsSound (at pieces.old) kept.old next → IsSound (at pieces.new) kept.new next }
{
    let block = kept.get(index);
    let from = block.start;
    let to = from + block.size;
    clear(pieces, block.mixed, from, to);
    kept.end(index)
}

/// The least multiple of an alignment that is not below a number.
fn round_up(number: u64, align: u32) -> u64
    requires align { IsAlignment align }
    requires number { number ≤ of.last_begin }
    ensures value { result ≡ round_up number align }
    ensures above { number ≤ result }
    ensures below { result < number + align }
    ensures align { align ≤ 65536 }
{
    // Most alignments are one of few, and a division by a number that is known takes no time.
    match align {
        1 => number,
        4 => (number + 3) / 4 * 4,
        8 => (number + 7) / 8 * 8,
        16 => (number + 15) / 16 * 16,
        _ => {
            let align = u64::from(align);
            (number + (align - 1)) / align * align
        }
    }
}
