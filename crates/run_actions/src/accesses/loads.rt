//! Loads (LangRef, "load Instruction").
ghost use Rattle.std.specs.Prelude.{◌≡◌, ◌∷◌, [], All, IfSome, Ok, OnErr, length};
ghost use Rattle.ir_eval.specs.declared.value.Scalar.TheVariants as scalar;
ghost use Rattle.ir_memory.specs.Given.{IsAddress, IsAlignment, IsLeaf};
ghost use Rattle.ir_memory.specs.declared.leaf.Leaf.TheVariants as variants;
ghost use Rattle.run_rules.specs.Access.{loaded_value};
ghost use Rattle.run_rules.specs.Action.{Load};
ghost use Rattle.run_actions.specs.Stack.Origins.{origin_of};
ghost use Rattle.run_actions.specs.Operands.{HasPlaces, IsPlace, IsThere, leaf_of, MayGoOn};
ghost use Rattle.run_actions.specs.Accesses.Done.{Accesses};

use crate::accesses::slot::with_leaf;
use crate::stack::{Origin, Stack};
use crate::{give, give_all, only};
use ir_eval::Scalar;
use ir_memory::{Leaf, Memory, MemoryFault};
use run_names::values::{Slot, load_leaf, load_plain, load_value};

/// A load of one leaf, whatever it is, where the address has been read. What it was read from serves the clauses.
#[inline(always)]
fn load_one(
    stack: &mut Stack,
    memory: &Memory,
    to: u32,
    align: u32,
    _from: &Origin,
    address: Scalar,
    slot: Slot,
) -> Result<(), MemoryFault>
    requires on { MayGoOn stack.old }
    requires read { address ≡ leaf_of stack.old _from.now }
    requires address { IsAddress memory.now.list address }
    requires align { IsAlignment align }
    requires leaf { IsLeaf slot.leaf }
    requires place { IsPlace stack.old to }
    ensures loads { Accesses (Load to align (origin_of _from.now) (slot ∷ [])) result stack.old stack.new memory.now memory.now }
    ensures err { OnErr result (stack.new ≡ stack.old) }
{
    match load_leaf(memory, address, align, slot) {
        Ok(value) => {
            give(stack, to, value);
            Ok(())
        }
        Err(kind) => Err(MemoryFault::Undefined(kind)),
    }
}

/// A load of a value, whatever it is. What `room` has is lost.
#[cold]
#[inline(never)]
fn load_any(
    stack: &mut Stack,
    memory: &Memory,
    to: u32,
    align: u32,
    address: &Origin,
    slots: &[Slot],
    room: &mut Vec<Scalar>,
) -> Result<(), MemoryFault>
    requires on { MayGoOn stack.old }
    requires there { IsThere stack.old address.now }
    requires address { IsAddress memory.now.list (leaf_of stack.old address.now) }
    requires align { IsAlignment align }
    requires leaves { All (λ s. IsLeaf s.leaf) slots.now }
    requires places { HasPlaces stack.old to (length slots.now) }
    ensures loads { Accesses (Load to align (origin_of address.now) slots.now) result stack.old stack.new memory.now memory.now }
    ensures err { OnErr result (stack.new ≡ stack.old) }
{
    let place = stack.read(address);
    if slots.len() == 1 {
        return load_one(stack, memory, to, align, address, place, only(slots));
    }
    room.clear();
    match load_value(memory, place, align, slots, room) {
        Ok(()) => {
            give_all(stack, to, room);
            Ok(())
        }
        Err(fault) => Err(fault),
    }
}

/// A load of a value, whatever it is, where the address has been read. What it was read from serves the clauses.
#[inline(always)]
fn load_read(
    stack: &mut Stack,
    memory: &Memory,
    to: u32,
    align: u32,
    _from: &Origin,
    address: Scalar,
    slots: &[Slot],
    room: &mut Vec<Scalar>,
) -> Result<(), MemoryFault>
    requires on { MayGoOn stack.old }
    requires read { address ≡ leaf_of stack.old _from.now }
    requires address { IsAddress memory.now.list address }
    requires align { IsAlignment align }
    requires leaves { All (λ s. IsLeaf s.leaf) slots.now }
    requires places { HasPlaces stack.old to (length slots.now) }
    ensures loads { Accesses (Load to align (origin_of _from.now) slots.now) result stack.old stack.new memory.now memory.now }
    ensures err { OnErr result (stack.new ≡ stack.old) }
{
    let known = Origin::Known(address);
    match load_any(stack, memory, to, align, &known, slots, room) {
        Ok(()) => Ok(()),
        Err(fault) => Err(fault),
    }
}

/// A load of one pointer. The leaf is written out, so the load is compiled for it.
#[inline(always)]
fn load_pointer(
    stack: &mut Stack,
    memory: &Memory,
    to: u32,
    align: u32,
    from: &Origin,
    address: Scalar,
    slot: Slot,
) -> Result<(), MemoryFault>
    requires on { MayGoOn stack.old }
    requires read { address ≡ leaf_of stack.old from.now }
    requires address { IsAddress memory.now.list address }
    requires align { IsAlignment align }
    requires known { slot.leaf ≡ variants.Ptr }
    requires place { IsPlace stack.old to }
    ensures loads { Accesses (Load to align (origin_of from.now) (slot ∷ [])) result stack.old stack.new memory.now memory.now }
    ensures err { OnErr result (stack.new ≡ stack.old) }
{
    let known = with_leaf(slot, Leaf::Ptr);
    load_one(stack, memory, to, align, from, address, known)
}

/// The slot of a value that is one pointer.
#[inline(always)]
fn pointer_slot(slots: &[Slot]) -> Option<Slot>
    ensures { IfSome result (λ s. (slots.now ≡ s ∷ []) × (s.leaf ≡ variants.Ptr)) }
{
    if slots.len() != 1 {
        return None;
    }
    let slot = only(slots);
    match slot.leaf() {
        Leaf::Ptr => Some(slot),
        Leaf::Int(_) => None,
    }
}

/// A load that few steps do not tell: pointers have a path, which is compiled for them.
#[inline(always)]
fn load_further(
    stack: &mut Stack,
    memory: &Memory,
    to: u32,
    align: u32,
    from: &Origin,
    address: Scalar,
    slots: &[Slot],
    room: &mut Vec<Scalar>,
) -> Result<(), MemoryFault>
    requires on { MayGoOn stack.old }
    requires read { address ≡ leaf_of stack.old from.now }
    requires address { IsAddress memory.now.list address }
    requires align { IsAlignment align }
    requires leaves { All (λ s. IsLeaf s.leaf) slots.now }
    requires places { HasPlaces stack.old to (length slots.now) }
    ensures loads { Accesses (Load to align (origin_of from.now) slots.now) result stack.old stack.new memory.now memory.now }
    ensures err { OnErr result (stack.new ≡ stack.old) }
{
    match pointer_slot(slots) {
        Some(slot) => load_pointer(stack, memory, to, align, from, address, slot),
        None => load_read(stack, memory, to, align, from, address, slots, room),
    }
}

/// The integer that a value is, where few steps tell its load. None says nothing of the load.
#[inline(always)]
fn integer(memory: &Memory, address: Scalar, align: u32, slots: &[Slot]) -> Option<u128>
    requires address { IsAddress memory.now.list address }
    requires align { IsAlignment align }
    ensures { IfSome result (λ n. loaded_value memory.now address align slots.now ≡ Ok (scalar.Int n ∷ [])) }
{
    if slots.len() != 1 {
        return None;
    }
    let Scalar::Ptr(pointer) = address else {
        return None;
    };
    load_plain(memory, pointer, align, only(slots))
}

/// The value at an address, leaf by leaf. The alignment is in bytes. What `room` has is lost.
///
/// Refused where the load is undefined; only a value of more than one leaf wants memory. A refusal leaves the frames as they were.
#[inline(always)]
pub fn load(
    stack: &mut Stack,
    memory: &Memory,
    to: u32,
    align: u32,
    address: &Origin,
    slots: &[Slot],
    room: &mut Vec<Scalar>,
) -> Result<(), MemoryFault>
    requires on { MayGoOn stack.old }
    requires there { IsThere stack.old address.now }
    requires address { IsAddress memory.now.list (leaf_of stack.old address.now) }
    requires align { IsAlignment align }
    requires leaves { All (λ s. IsLeaf s.leaf) slots.now }
    requires places { HasPlaces stack.old to (length slots.now) }
    ensures loads { Accesses (Load to align (origin_of address.now) slots.now) result stack.old stack.new memory.now memory.now }
    ensures err { OnErr result (stack.new ≡ stack.old) }
{
    let place = stack.read(address);
    match integer(memory, place, align, slots) {
        Some(number) => {
            give(stack, to, Scalar::Int(number));
            Ok(())
        }
        None => load_further(stack, memory, to, align, address, place, slots, room),
    }
}
