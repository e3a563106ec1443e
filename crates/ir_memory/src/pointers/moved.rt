//! Pieces gathered from one range, as another is to have them.
ghost use Rattle.std.specs.Prelude.{◌≡◌, ℕ, ◌+◌, ◌<◌, ◌^◌, IfOk};
ghost use Rattle.std.specs.Ordering.{nat_cmp};
ghost use Rattle.std.specs.BTreeMap as tree;
ghost use Rattle.ir_memory.specs.Pointers.Pieces.{at_slots, shifted};

use crate::pointers::piece::PointerPiece;
use crate::pointers::slot::PieceSlot;
use crate::pointers::slots::first_piece;
use std::alloc::{AllocError, Global};
use std::collections::BTreeMap;

/// The pieces of a range, at the addresses where a copy puts them.
pub fn moved(
    alloc: Global,
    slots: &BTreeMap<u64, PieceSlot>,
    to: u64,
    from: u64,
    count: u64,
) -> Result<BTreeMap<u64, PointerPiece>, AllocError>
    requires target { to + count < 2 ^ 64 }
    requires source { from + count < 2 ^ 64 }
    ensures { IfOk result (λ m. (q : ℕ) → tree.get nat_cmp m q ≡ shifted to from count (at_slots (tree.get nat_cmp slots.now)) q) }
{
    let mut found = BTreeMap::new(alloc);
    let mut next = 0;
    while let Some((key, piece)) = first_piece(slots, from + next, from + count) {
        let place = key - from;
        found.insert(to + place, piece)?;
        next = place + 1;
    }
    Ok(found)
}
