//! The pieces at eight addresses that follow one another.
ghost use Rattle.std.specs.Prelude.{◌≡◌, ℕ, ◌+◌, ◌*◌, ◌/◌, ◌%◌, ◌<◌, ◌≤◌, ◌^◌, ◌≢◌, Some, None, IfSome, IfNone, IsSome, slice_index_or, true, false, if◌then◌else◌};
ghost use Rattle.std.specs.Ordering.{nat_cmp};
ghost use Rattle.std.specs.BTreeMap as tree;
ghost use Rattle.ir_eval.specs.declared.value.Pointer.{Pointer};
ghost use Rattle.ir_memory.specs.Pointers.Pieces.{is_within};

use crate::pointers::piece::PointerPiece;
use ir_eval::Pointer;
use std::collections::BTreeMap;

/// The pieces at eight addresses, the first of which is a multiple of 8.
#[derive(Clone, Copy)]
pub struct PieceSlot {
    pub pieces: [Option<PointerPiece>; 8],
}

/// Whether an address is one of a range.
#[inline]
fn is_within(from: u64, to: u64, address: u64) -> bool
    ensures { result ≡ is_within from to address }
{
    from <= address && address < to
}

/// A piece, unless it is one of a range.
fn unless_within(
    piece: Option<PointerPiece>,
    from: u64,
    to: u64,
    address: u64,
) -> Option<PointerPiece>
    ensures { result ≡ (if is_within from to address then None else piece) }
{
    if is_within(from, to, address) {
        None
    } else {
        piece
    }
}

/// A piece, if it is one of a range.
fn if_within(piece: Option<PointerPiece>, from: u64, to: u64, address: u64) -> Option<PointerPiece>
    ensures { result ≡ (if is_within from to address then piece else None) }
{
    if is_within(from, to, address) {
        piece
    } else {
        None
    }
}

/// In a range the found piece, elsewhere the one.
fn found_within(
    piece: Option<PointerPiece>,
    from: u64,
    to: u64,
    address: u64,
    found: &BTreeMap<u64, PointerPiece>,
) -> Option<PointerPiece>
    ensures { result ≡ (if is_within from to address then tree.get nat_cmp found.now address else piece) }
{
    if is_within(from, to, address) {
        found.get(&address).copied()
    } else {
        piece
    }
}

/// Whether a piece is that of a pointer, counted from the lowest.
fn is_piece(piece: Option<PointerPiece>, pointer: Pointer, place: u8) -> bool
    ensures same { result ≡ true → piece ≡ Some (record { pointer = pointer; place = place }) }
    ensures other { result ≡ false → piece ≢ Some (record { pointer = pointer; place = place }) }
{
    match piece {
        Some(piece) => piece == PointerPiece { pointer, place },
        None => false,
    }
}

/// Whether there is no piece.
fn is_absent(piece: Option<PointerPiece>) -> bool
    ensures none { result ≡ true → piece ≡ None }
    ensures some { result ≡ false → IsSome piece }
{
    match piece {
        Some(_) => false,
        None => true,
    }
}

impl PieceSlot {
    /// No piece.
    pub fn none() -> PieceSlot
        ensures { (k : ℕ) → slice_index_or result.pieces k None ≡ None }
    {
        PieceSlot { pieces: [None; 8] }
    }

    /// All pieces of a pointer, in order.
    pub fn whole(pointer: Pointer) -> PieceSlot
        ensures { (k : ℕ) → k < 8 → slice_index_or result.pieces k None ≡ Some (record { pointer = pointer; place = k }) }
    {
        let mut pieces = [None; 8];
        'places: for k in 0..8 {
            pieces[k] = Some(PointerPiece {
                pointer,
                place: k as u8,
            });
        }
        PieceSlot { pieces }
    }

    /// The pointer all of whose pieces these are, in order; None where there is no such pointer.
    pub fn pointer(&self) -> Option<Pointer>
        ensures some { IfSome result (λ p. (k : ℕ) → k < 8 → slice_index_or self.now.pieces k None ≡ Some (record { pointer = p; place = k })) }
        ensures none { IfNone result ((p : Pointer) → ¬ ((k : ℕ) → k < 8 → slice_index_or self.now.pieces k None ≡ Some (record { pointer = p; place = k }))) }
    {
        let first = self.pieces[0]?;
        let pointer = first.pointer;
        'places: for k in 0..8 {
            if !is_piece(self.pieces[k], pointer, k as u8) {
                return None;
            }
        }
        Some(pointer)
    }

    /// Whether no piece stands there.
    pub fn is_clear(&self) -> bool
        ensures none { result ≡ true → (k : ℕ) → k < 8 → slice_index_or self.now.pieces k None ≡ None }
        ensures some { result ≡ false → (k : ℕ) × (k < 8) × IsSome (slice_index_or self.now.pieces k None) }
    {
        'places: for k in 0..8 {
            if !is_absent(self.pieces[k]) {
                return false;
            }
        }
        true
    }

    /// The slot of that number without the pieces of a range of addresses.
    pub fn without(self, number: u64, from: u64, to: u64) -> PieceSlot
        requires { number < 2 ^ 61 }
        ensures { (k : ℕ) → k < 8 → slice_index_or result.pieces k None ≡ (if is_within from to (8 * number + k) then None else slice_index_or self.pieces k None) }
    {
        let mut pieces = self.pieces;
        'places: for k in 0..8 {
            pieces[k] = unless_within(pieces[k], from, to, 8 * number + k as u64);
        }
        PieceSlot { pieces }
    }

    /// The slot of that number with the found pieces, and no others, in a range of addresses.
    pub fn with(
        self,
        number: u64,
        from: u64,
        to: u64,
        found: &BTreeMap<u64, PointerPiece>,
    ) -> PieceSlot
        requires { number < 2 ^ 61 }
        ensures { (k : ℕ) → k < 8 → slice_index_or result.pieces k None ≡ (if is_within from to (8 * number + k) then tree.get nat_cmp found.now (8 * number + k) else slice_index_or self.pieces k None) }
    {
        let mut pieces = self.pieces;
        'places: for k in 0..8 {
            pieces[k] = found_within(pieces[k], from, to, 8 * number + k as u64, found);
        }
        PieceSlot { pieces }
    }

    /// The first piece of a range of addresses that is in the slot of that number, and its address.
    pub fn first(&self, number: u64, from: u64, to: u64) -> Option<(u64, PointerPiece)>
        requires { number < 2 ^ 61 }
        ensures within { IfSome result (λ e. (from ≤ e.0) × (e.0 < to)) }
        ensures slot { IfSome result (λ e. e.0 / 8 ≡ number) }
        ensures here { IfSome result (λ e. slice_index_or self.now.pieces (e.0 % 8) None ≡ Some e.1) }
        ensures first { IfSome result (λ e. (q : ℕ) → q / 8 ≡ number → from ≤ q → q < e.0 → slice_index_or self.now.pieces (q % 8) None ≡ None) }
        ensures none { IfNone result ((q : ℕ) → q / 8 ≡ number → from ≤ q → q < to → slice_index_or self.now.pieces (q % 8) None ≡ None) }
    {
        'places: for k in 0..8 {
            let address = 8 * number + k as u64;
            if let Some(piece) = if_within(self.pieces[k], from, to, address) {
                return Some((address, piece));
            }
        }
        None
    }
}
