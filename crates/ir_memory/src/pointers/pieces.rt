//! The pieces of pointers by their addresses.
ghost use Rattle.std.specs.Prelude.{◌≡◌, ℕ, ◌+◌, ◌-◌, ◌<◌, ◌≤◌, ◌^◌, ◌%◌, IfOk, IfNone, IfSome, IsSome, OnOk, OnErr, Some, true, false, None};
ghost use Rattle.std.specs.Ordering.{nat_cmp};
ghost use Rattle.std.specs.BTreeMap as tree;
ghost use Rattle.ir_eval.specs.declared.value.Pointer.{Pointer};
ghost use Rattle.ir_memory.specs.Pointers.Pieces.{at_slots, without, with_pointer, with_moved};

use crate::pointers::moved::moved;
use crate::pointers::piece::PointerPiece;
use crate::pointers::slot::PieceSlot;
use crate::pointers::slots::{clear, first_piece, make_room, put, write_all};
use ir_eval::Pointer;
use std::alloc::{AllocError, Global};
use std::collections::BTreeMap;

/// The pieces of pointers in memory, by the addresses where they stand: those of eight addresses each in a slot.
#[derive(Drop)]
pub struct Pieces {
    alloc: Global,
    slots: BTreeMap<u64, PieceSlot>,
}

/// The pieces of a pointer from an address on.
fn pieces_of(
    alloc: Global,
    at: u64,
    pointer: Pointer,
) -> Result<BTreeMap<u64, PointerPiece>, AllocError>
    requires { at + 8 < 2 ^ 64 }
    ensures { IfOk result (λ m. (q : ℕ) → tree.get nat_cmp m q ≡ with_pointer at 8 pointer (λ q. None) q) }
{
    let mut found = BTreeMap::new(alloc);
    for k in 0..8 {
        found.insert(
            at + k,
            PointerPiece {
                pointer,
                place: k as u8,
            },
        )?;
    }
    Ok(found)
}

impl Pieces {
    /// No pieces.
    pub fn new(alloc: Global) -> Pieces
        ensures { (q : ℕ) → at_slots (tree.get nat_cmp result.slots) q ≡ None }
    {
        Pieces {
            alloc,
            slots: BTreeMap::new(alloc),
        }
    }

    /// The piece at an address.
    pub fn get(&self, address: u64) -> Option<PointerPiece>
        ensures { result ≡ at_slots (tree.get nat_cmp self.now.slots) address }
    {
        match self.slots.get(&(address / 8)) {
            Some(slot) => slot.pieces[(address % 8) as usize],
            None => None,
        }
    }

    /// The pointer whose eight pieces stand from an address on, in order. None tells nothing where that is no multiple of 8.
    pub fn pointer(&self, address: u64) -> Option<Pointer>
        ensures some { IfSome result (λ p. (k : ℕ) → k < 8 → at_slots (tree.get nat_cmp self.now.slots) (address + k) ≡ Some (record { pointer = p; place = k })) }
        ensures none { address % 8 ≡ 0 → IfNone result ((p : Pointer) → ¬ ((k : ℕ) → k < 8 → at_slots (tree.get nat_cmp self.now.slots) (address + k) ≡ Some (record { pointer = p; place = k }))) }
    {
        if address % 8 != 0 {
            return None;
        }
        match self.slots.get(&(address / 8)) {
            Some(slot) => slot.pointer(),
            None => None,
        }
    }

    /// Whether a range has no piece.
    pub fn is_clear(&self, from: u64, to: u64) -> bool
        requires { from ≤ to }
        ensures none { result ≡ true → (q : ℕ) → from ≤ q → q < to → at_slots (tree.get nat_cmp self.now.slots) q ≡ None }
        ensures some { result ≡ false → (q : ℕ) × (from ≤ q) × (q < to) × IsSome (at_slots (tree.get nat_cmp self.now.slots) q) }
    {
        first_piece(&self.slots, from, to).is_none()
    }

    /// Removes the pieces of a range, which takes no memory.
    pub fn clear(&mut self, from: u64, to: u64)
        requires { from ≤ to }
        ensures { (q : ℕ) → at_slots (tree.get nat_cmp self.new.slots) q ≡ without from to (at_slots (tree.get nat_cmp self.old.slots)) q }
    {
        clear(&mut self.slots, from, to);
    }

    /// Places the eight pieces of a pointer. Where memory is refused, nothing changes.
    pub fn place(&mut self, at: u64, pointer: Pointer) -> Result<(), AllocError>
        requires { at + 8 < 2 ^ 64 }
        ensures placed { OnOk result ((q : ℕ) → at_slots (tree.get nat_cmp self.new.slots) q ≡ with_pointer at 8 pointer (at_slots (tree.get nat_cmp self.old.slots)) q) }
        ensures err { OnErr result ((q : ℕ) → at_slots (tree.get nat_cmp self.new.slots) q ≡ at_slots (tree.get nat_cmp self.old.slots) q) }
    {
        if at % 8 == 0 {
            put(&mut self.slots, at / 8, PieceSlot::whole(pointer))?;
            return Ok(());
        }
        let found = pieces_of(self.alloc, at, pointer)?;
        make_room(&mut self.slots, &found, at, at + 8)?;
        write_all(&mut self.slots, &found, at, at + 8);
        Ok(())
    }

    /// Moves the pieces of one range to another, where they stand in place of what was there; those of the
    /// first stay where the second has not their addresses. Where memory is refused, nothing changes.
    pub fn copy(&mut self, to: u64, from: u64, count: u64) -> Result<(), AllocError>
        requires target { to + count < 2 ^ 64 }
        requires source { from + count < 2 ^ 64 }
        ensures copied { OnOk result ((q : ℕ) → at_slots (tree.get nat_cmp self.new.slots) q ≡ with_moved to from count (at_slots (tree.get nat_cmp self.old.slots)) q) }
        ensures err { OnErr result ((q : ℕ) → at_slots (tree.get nat_cmp self.new.slots) q ≡ at_slots (tree.get nat_cmp self.old.slots) q) }
    {
        let end = to + count;
        let found = moved(self.alloc, &self.slots, to, from, count)?;
        make_room(&mut self.slots, &found, to, end)?;
        write_all(&mut self.slots, &found, to, end);
        Ok(())
    }
}
