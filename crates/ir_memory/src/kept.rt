//! One block as memory keeps it.
ghost use Rattle.std.specs.Prelude.{◌≡◌, ◌≢◌, ◌+◌, ◌^◌, ◌<◌, ◌≤◌, ◌&&◌, nat_le, IfSome, Some, ℕ, Option, replicate, true, false};
ghost use Rattle.ir_memory.specs.MemoryBlock as block;
ghost use Rattle.ir_memory.specs.Seen.{fresh, ended_block, seen};
ghost use Rattle.ir_memory.specs.declared.pointers.piece.PointerPiece.{PointerPiece};

use crate::BlockKind;
use crate::masked::MaskedBytes;
use std::alloc::Global;

/// A run of addresses: its bytes, of which some may be poison, and whether pieces of pointers may stand there.
/// A block that has ended has no bytes.
#[derive(Drop)]
pub struct KeptBlock {
    pub start: u64,
    pub size: u64,
    pub kind: BlockKind,
    pub live: bool,
    pub bytes: MaskedBytes,
    pub mixed: bool,
}

impl KeptBlock {
    /// A live block of these bytes, which are zeros.
    #[inline]
    pub fn new(start: u64, size: u64, kind: BlockKind, bytes: MaskedBytes) -> KeptBlock
        requires { bytes ≡ replicate size (Some 0) }
        ensures { result ≡ fresh start size kind }
    {
        KeptBlock {
            start,
            size,
            kind,
            live: true,
            bytes,
            mixed: false,
        }
    }

    /// What is left of a block that has ended.
    pub fn ended(alloc: Global) -> KeptBlock
        ensures { result ≡ ended_block }
    {
        KeptBlock {
            start: 0,
            size: 0,
            kind: BlockKind::Stack,
            live: false,
            bytes: MaskedBytes::none(alloc),
            mixed: false,
        }
    }

    /// Whether nothing of it is kept.
    pub fn is_gone(&self) -> bool
        ensures gone { result ≡ true → self.now ≡ ended_block }
        ensures kept { result ≡ false → self.now ≢ ended_block }
    {
        if self.live {
            return false;
        }
        if self.mixed {
            return false;
        }
        if self.start != 0 {
            return false;
        }
        if self.size != 0 {
            return false;
        }
        if self.bytes.len() != 0 {
            return false;
        }
        match self.kind {
            BlockKind::Stack => true,
            BlockKind::Variable(_) | BlockKind::Heap => false,
        }
    }

    /// Whether it is live and holds so many bytes from an address on.
    #[inline(always)]
    pub fn is_home(&self, address: u64, count: u64) -> bool
        ensures { result ≡ (self.now.live && (nat_le self.now.start address && nat_le (address + count) (self.now.start + self.now.size))) }
    {
        self.live
            && self.start <= address
            && address - self.start <= self.size
            && count <= self.size - (address - self.start)
    }

    /// How far so many bytes from an address on lie behind the start, where they are bytes of the block. One that has bytes ends
    /// below 2^64.
    #[inline(always)]
    pub fn offset_of(&self, address: u64, count: u64) -> Option<usize>
        requires { 0 < self.now.size → self.now.start + self.now.size < 2 ^ 64 }
        ensures { IfSome result (λ offset. (self.now.start + offset ≡ address) × (offset + count ≤ self.now.size)) }
    {
        if count > self.size {
            return None;
        }
        // An address before the start is as far behind it as no block reaches.
        let offset = address.wrapping_sub(self.start);
        if offset > self.size - count {
            return None;
        }
        Some(offset as usize)
    }

    /// Whether it is a live block of that kind that starts there.
    pub fn starts(&self, address: u64, kind: BlockKind) -> bool
        ensures { (pieces : ℕ → Option PointerPiece) → result ≡ block.starts (seen pieces self.now) address kind }
    {
        self.live && self.start == address && self.kind == kind
    }

    /// Whether it is live and begins at or below an address.
    #[inline(always)]
    pub fn has_begun(&self, address: u64) -> bool
        ensures { result ≡ (self.now.live && nat_le self.now.start address) }
    {
        self.live && self.start <= address
    }

    /// Whether the block is a constant variable.
    #[inline(always)]
    pub fn is_constant(&self) -> bool
        ensures { result ≡ block.is_constant self.now.kind }
    {
        match self.kind {
            BlockKind::Variable(constant) => constant,
            BlockKind::Stack => false,
            BlockKind::Heap => false,
        }
    }
}
