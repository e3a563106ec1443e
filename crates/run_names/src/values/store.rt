//! Stores of whole values (LangRef, "store").
ghost use Rattle.std.specs.Prelude.{◌≡◌, ◌*◌, ◌≤◌, [], ◌∷◌, All, Ok, true, false, length, zip};
ghost use Rattle.ir_eval.specs.declared.value.Scalar.TheVariants as scalar;
ghost use Rattle.ir_memory.specs.Answer.{Answers, IsInteger, Keeps, NeedsNone};
ghost use Rattle.ir_memory.specs.Given.{IsAddress, IsAlignment, IsKnown, IsLeaf};
ghost use Rattle.ir_memory.specs.declared.leaf.Leaf.TheVariants as kinds;
ghost use Rattle.run_rules.specs.Access.{stored_slots, stored_value};
ghost use Rattle.typed_runs.specs.Kinds.{IsOf};
ghost use Rattle.typed_runs.specs.States.{AreStored};
ghost use Rattle.run_names.specs.Values.Answer.{Stores};

use crate::values::Slot;
use crate::values::displaced::behind;
use ir_eval::{Pointer, Scalar};
use ir_memory::{Leaf, Memory, MemoryFault};
use ir_tables::UndefinedKind;

/// Stores a value of one leaf. It is refused exactly where the store is undefined, and then memory is unchanged; memory is wanted
/// by pointers alone.
#[inline(always)]
pub fn store_leaf(
    memory: &mut Memory,
    address: Scalar,
    align: u32,
    slot: Slot,
    value: Scalar,
) -> Result<(), MemoryFault>
    requires address { IsAddress memory.old.list address }
    requires align { IsAlignment align }
    requires leaf { IsLeaf slot.leaf }
    requires value { IsOf (length memory.old.list) slot.leaf value }
    ensures answer { Answers (stored_value address align ((slot, value) ∷ []) memory.old) memory.old memory.new result }
    ensures kept { Keeps memory.old memory.new }
    ensures memory { IsInteger slot.leaf → NeedsNone result }
{
    let Scalar::Ptr(pointer) = address else {
        return Err(MemoryFault::Undefined(UndefinedKind::PoisonAddress));
    };
    let place = Scalar::Ptr(behind(pointer, slot.offset()));
    memory.store(place, slot.leaf(), align, value)
}

/// Stores an integer of so many bytes, where few steps tell the store. Where the count is written out, the store is compiled for it.
#[inline(always)]
fn store_integer(
    memory: &mut Memory,
    pointer: Pointer,
    align: u32,
    slot: Slot,
    count: usize,
    number: u128,
) -> bool
    requires pointer { IsKnown memory.old.list pointer }
    requires align { IsAlignment align }
    requires leaf { slot.leaf ≡ kinds.Int (8 * count) }
    requires some { 1 ≤ count }
    requires few { count ≤ 8 }
    ensures stored { result ≡ true → stored_value (scalar.Ptr pointer) align ((slot, scalar.Int number) ∷ []) memory.old ≡ Ok memory.new }
    ensures unchanged { result ≡ false → memory.new ≡ memory.old }
    ensures kept { Keeps memory.old memory.new }
{
    memory.store_plain(behind(pointer, slot.offset()), count, align, number)
}

/// Stores a value that is one integer of 8, 16, 32 or 64 bits, where few steps tell the store. Where it answers false, it says nothing of
/// the store, and memory is unchanged.
#[inline(always)]
pub fn store_plain(
    memory: &mut Memory,
    pointer: Pointer,
    align: u32,
    slot: Slot,
    number: u128,
) -> bool
    requires pointer { IsKnown memory.old.list pointer }
    requires align { IsAlignment align }
    ensures stored { result ≡ true → stored_value (scalar.Ptr pointer) align ((slot, scalar.Int number) ∷ []) memory.old ≡ Ok memory.new }
    ensures unchanged { result ≡ false → memory.new ≡ memory.old }
    ensures kept { Keeps memory.old memory.new }
{
    let Leaf::Int(width) = slot.leaf() else {
        return false;
    };
    // In two halves, as of a load.
    if width < 32 {
        match width {
            8 => store_integer(memory, pointer, align, slot, 1, number),
            16 => store_integer(memory, pointer, align, slot, 2, number),
            _ => false,
        }
    } else {
        match width {
            32 => store_integer(memory, pointer, align, slot, 4, number),
            64 => store_integer(memory, pointer, align, slot, 8, number),
            _ => false,
        }
    }
}

/// Stores leaves in their order, up to one whose store is undefined. The first is accessed with that alignment, the others with 1.
fn store_leaves(
    memory: &mut Memory,
    pointer: Pointer,
    align: u32,
    slots: &[Slot],
    leaves: &[Scalar],
) -> Result<(), MemoryFault>
    requires pointer { IsKnown memory.old.list pointer }
    requires align { IsAlignment align }
    requires slots { All (λ s. IsLeaf s.leaf) slots.now }
    requires count { length leaves.now ≡ length slots.now }
    requires leaves { AreStored (length memory.old.list) (zip slots.now leaves.now) }
    ensures value { Stores (stored_slots pointer align (zip slots.now leaves.now) memory.old) memory.new result }
    ensures kept { Keeps memory.old memory.new }
    ensures memory { All (λ s. IsInteger s.leaf) slots.now → NeedsNone result }
{
    let mut asked = align;
    'slots: for index in 0..slots.len() {
        let slot = slots[index];
        let place = Scalar::Ptr(behind(pointer, slot.offset()));
        memory.store(place, slot.leaf(), asked, leaves[index])?;
        asked = 1;
    }
    Ok(())
}

/// Stores the leaves of a value at an address, in their order. Where the store is undefined, or memory is wanted, leaves before
/// that may have been written: such a run has no further step. Memory is wanted by pointers alone.
#[inline(never)]
pub fn store_value(
    memory: &mut Memory,
    address: Scalar,
    align: u32,
    slots: &[Slot],
    leaves: &[Scalar],
) -> Result<(), MemoryFault>
    requires address { IsAddress memory.old.list address }
    requires align { IsAlignment align }
    requires slots { All (λ s. IsLeaf s.leaf) slots.now }
    requires count { length leaves.now ≡ length slots.now }
    requires leaves { AreStored (length memory.old.list) (zip slots.now leaves.now) }
    ensures value { Stores (stored_value address align (zip slots.now leaves.now) memory.old) memory.new result }
    ensures kept { Keeps memory.old memory.new }
    ensures memory { All (λ s. IsInteger s.leaf) slots.now → NeedsNone result }
{
    let Scalar::Ptr(pointer) = address else {
        return Err(MemoryFault::Undefined(UndefinedKind::PoisonAddress));
    };
    store_leaves(memory, pointer, align, slots, leaves)
}
