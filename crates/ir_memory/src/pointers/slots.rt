//! Slots by their numbers: that of an address is an eighth of it.
ghost use Rattle.std.specs.Prelude.{◌≡◌, ◌≢◌, ℕ, ◌/◌, ◌%◌, ◌<◌, ◌≤◌, ◌^◌, ◌==◌, IfSome, IfNone, IsSome, OnOk, OnErr, Some, None, slice_index_or, if◌then◌else◌};
ghost use Rattle.std.specs.Ordering.{nat_cmp};
ghost use Rattle.std.specs.BTreeMap as tree;
ghost use Rattle.ir_memory.specs.Pointers.Pieces.{at_slots, within_or, without};

use crate::pointers::piece::PointerPiece;
use crate::pointers::ranges::first_within;
use crate::pointers::slot::PieceSlot;
use std::alloc::AllocError;
use std::collections::BTreeMap;

/// The first slot of a range of numbers.
fn first_slot(slots: &BTreeMap<u64, PieceSlot>, from: u64, to: u64) -> Option<(u64, PieceSlot)>
    requires { from ≤ to }
    ensures within { IfSome result (λ e. (from ≤ e.0) × (e.0 < to)) }
    ensures here { IfSome result (λ e. tree.get nat_cmp slots.now e.0 ≡ Some e.1) }
    ensures first { IfSome result (λ e. (s : ℕ) → from ≤ s → s < e.0 → tree.get nat_cmp slots.now s ≡ None) }
    ensures none { IfNone result ((s : ℕ) → from ≤ s → s < to → tree.get nat_cmp slots.now s ≡ None) }
{
    let (number, slot) = slots.range(from..to).next()?;
    Some((*number, *slot))
}

/// Puts a slot in the place of what has that number.
pub fn put(
    slots: &mut BTreeMap<u64, PieceSlot>,
    number: u64,
    slot: PieceSlot,
) -> Result<(), AllocError>
    ensures put { OnOk result ((s : ℕ) → tree.get nat_cmp slots.new s ≡ (if s == number then Some slot else tree.get nat_cmp slots.old s)) }
    ensures err { OnErr result ((s : ℕ) → tree.get nat_cmp slots.new s ≡ tree.get nat_cmp slots.old s) }
{
    slots.insert(number, slot)?;
    Ok(())
}

/// Changes a slot that is there, which takes no memory.
fn change(slots: &mut BTreeMap<u64, PieceSlot>, number: u64, slot: PieceSlot)
    requires { IsSome (tree.get nat_cmp slots.old number) }
    ensures { (s : ℕ) → tree.get nat_cmp slots.new s ≡ (if s == number then Some slot else tree.get nat_cmp slots.old s) }
{
    if let Some(old) = slots.get_mut(&number) {
        *old = slot;
    }
}

/// Takes a slot away.
fn take(slots: &mut BTreeMap<u64, PieceSlot>, number: u64)
    ensures { (s : ℕ) → tree.get nat_cmp slots.new s ≡ (if s == number then None else tree.get nat_cmp slots.old s) }
{
    let _slot = slots.remove(&number);
}

/// Puts a slot in the place of one that is there, which takes no memory. Where it has no piece there is no slot then.
fn leave(slots: &mut BTreeMap<u64, PieceSlot>, number: u64, left: PieceSlot)
    requires { IsSome (tree.get nat_cmp slots.old number) }
    ensures here { (q : ℕ) → q / 8 ≡ number → at_slots (tree.get nat_cmp slots.new) q ≡ slice_index_or left.pieces (q % 8) None }
    ensures others { (s : ℕ) → s ≢ number → tree.get nat_cmp slots.new s ≡ tree.get nat_cmp slots.old s }
{
    if left.is_clear() {
        take(slots, number);
        return;
    }
    change(slots, number, left);
}

/// Takes the pieces of a range out of a slot that is there. One that has none behind that is taken away.
fn hide(slots: &mut BTreeMap<u64, PieceSlot>, number: u64, slot: PieceSlot, from: u64, to: u64)
    requires small { number < 2 ^ 61 }
    requires there { tree.get nat_cmp slots.old number ≡ Some slot }
    ensures here { (q : ℕ) → q / 8 ≡ number → at_slots (tree.get nat_cmp slots.new) q ≡ without from to (at_slots (tree.get nat_cmp slots.old)) q }
    ensures others { (s : ℕ) → s ≢ number → tree.get nat_cmp slots.new s ≡ tree.get nat_cmp slots.old s }
{
    if from <= 8 * number && 8 * number + 7 < to {
        take(slots, number);
        return;
    }
    leave(slots, number, slot.without(number, from, to));
}

/// The number behind those of all slots that a range of addresses meets.
fn end_of(from: u64, to: u64) -> u64
    ensures behind { (q : ℕ) → q < to → q / 8 < result }
    ensures order { from / 8 ≤ result }
    ensures small { result ≤ 2 ^ 61 }
{
    to.div_ceil(8).max(from / 8)
}

/// Takes away the pieces of a range, which takes no memory.
pub fn clear(slots: &mut BTreeMap<u64, PieceSlot>, from: u64, to: u64)
    requires { from ≤ to }
    ensures { (q : ℕ) → at_slots (tree.get nat_cmp slots.new) q ≡ without from to (at_slots (tree.get nat_cmp slots.old)) q }
{
    let end = end_of(from, to);
    let mut next = from / 8;
    'slots: while let Some(met) = first_slot(slots, next, end) {
        hide(slots, met.0, met.1, from, to);
        next = met.0 + 1;
    }
}

/// Makes sure that there is a slot for the found piece at an address. What is seen stays the same, also where memory is refused.
fn make_slot(slots: &mut BTreeMap<u64, PieceSlot>, address: u64) -> Result<(), AllocError>
    ensures room { OnOk result (IsSome (tree.get nat_cmp slots.new (address / 8))) }
    ensures stay { (s : ℕ) → IsSome (tree.get nat_cmp slots.old s) → IsSome (tree.get nat_cmp slots.new s) }
    ensures same { (q : ℕ) → at_slots (tree.get nat_cmp slots.new) q ≡ at_slots (tree.get nat_cmp slots.old) q }
{
    if slots.contains_key(&(address / 8)) {
        return Ok(());
    }
    put(slots, address / 8, PieceSlot::none())?;
    Ok(())
}

/// Makes sure that there is a slot for each of the found pieces in a range. What is seen stays the same, also where memory is refused.
fn add_slots(
    slots: &mut BTreeMap<u64, PieceSlot>,
    found: &BTreeMap<u64, PointerPiece>,
    from: u64,
    to: u64,
) -> Result<(), AllocError>
    requires { from ≤ to }
    ensures room { OnOk result ((q : ℕ) → from ≤ q → q < to → IsSome (tree.get nat_cmp found.now q) → IsSome (tree.get nat_cmp slots.new (q / 8))) }
    ensures same { (q : ℕ) → at_slots (tree.get nat_cmp slots.new) q ≡ at_slots (tree.get nat_cmp slots.old) q }
{
    let mut next = from;
    'found: while let Some(met) = first_within(found, next, to) {
        make_slot(slots, met.0)?;
        next = met.0 + 1;
    }
    Ok(())
}

/// Takes away the slots of a range of addresses that have no piece, which takes no memory. What is seen stays the same.
fn sweep(slots: &mut BTreeMap<u64, PieceSlot>, from: u64, to: u64)
    requires { from ≤ to }
    ensures { (q : ℕ) → at_slots (tree.get nat_cmp slots.new) q ≡ at_slots (tree.get nat_cmp slots.old) q }
{
    let end = end_of(from, to);
    let mut next = from / 8;
    'slots: while let Some(met) = first_slot(slots, next, end) {
        leave(slots, met.0, met.1);
        next = met.0 + 1;
    }
}

/// Makes sure that there is a slot for each of the found pieces in a range. What is seen stays the same, also where memory is refused;
/// then no slot without a piece stays there.
pub fn make_room(
    slots: &mut BTreeMap<u64, PieceSlot>,
    found: &BTreeMap<u64, PointerPiece>,
    from: u64,
    to: u64,
) -> Result<(), AllocError>
    requires { from ≤ to }
    ensures room { OnOk result ((q : ℕ) → from ≤ q → q < to → IsSome (tree.get nat_cmp found.now q) → IsSome (tree.get nat_cmp slots.new (q / 8))) }
    ensures same { (q : ℕ) → at_slots (tree.get nat_cmp slots.new) q ≡ at_slots (tree.get nat_cmp slots.old) q }
{
    match add_slots(slots, found, from, to) {
        Ok(()) => Ok(()),
        Err(fault) => {
            sweep(slots, from, to);
            Err(fault)
        }
    }
}

/// Makes a range have the found pieces and no others. There is a slot for each, so it takes no memory.
pub fn write_all(
    slots: &mut BTreeMap<u64, PieceSlot>,
    found: &BTreeMap<u64, PointerPiece>,
    from: u64,
    to: u64,
)
    requires order { from ≤ to }
    requires room { (q : ℕ) → from ≤ q → q < to → IsSome (tree.get nat_cmp found.now q) → IsSome (tree.get nat_cmp slots.old (q / 8)) }
    ensures { (q : ℕ) → at_slots (tree.get nat_cmp slots.new) q ≡ within_or from to (tree.get nat_cmp found.now) (at_slots (tree.get nat_cmp slots.old)) q }
{
    let end = end_of(from, to);
    let mut next = from / 8;
    'slots: while let Some(met) = first_slot(slots, next, end) {
        change(slots, met.0, met.1.with(met.0, from, to, found));
        next = met.0 + 1;
    }
}

/// The first piece of a range, and its address.
pub fn first_piece(
    slots: &BTreeMap<u64, PieceSlot>,
    from: u64,
    to: u64,
) -> Option<(u64, PointerPiece)>
    requires { from ≤ to }
    ensures within { IfSome result (λ e. (from ≤ e.0) × (e.0 < to)) }
    ensures here { IfSome result (λ e. at_slots (tree.get nat_cmp slots.now) e.0 ≡ Some e.1) }
    ensures first { IfSome result (λ e. (q : ℕ) → from ≤ q → q < e.0 → at_slots (tree.get nat_cmp slots.now) q ≡ None) }
    ensures none { IfNone result ((q : ℕ) → from ≤ q → q < to → at_slots (tree.get nat_cmp slots.now) q ≡ None) }
{
    let end = end_of(from, to);
    let mut next = from / 8;
    'slots: while let Some(met) = first_slot(slots, next, end) {
        let piece = met.1.first(met.0, from, to);
        if piece.is_some() {
            return piece;
        }
        next = met.0 + 1;
    }
    None
}
