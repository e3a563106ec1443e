//! Loads of whole values (LangRef, "load").
ghost use Rattle.std.specs.Prelude.{◌≡◌, ◌+◌, ◌*◌, ◌<◌, ◌≤◌, [], ◌∷◌, ◌++◌, List, All, Ok, Err, IfErr, IfSome, OnOk, OnErr, length, vec_len, vec_capacity};
ghost use Rattle.ir_eval.specs.declared.value.Scalar.{Scalar as Leaves};
ghost use Rattle.ir_eval.specs.declared.value.Scalar.TheVariants as scalar;
ghost use Rattle.ir_memory.specs.Given.{IsAddress, IsAlignment, IsKnown, IsLeaf};
ghost use Rattle.ir_memory.specs.declared.leaf.Leaf.TheVariants as kinds;
ghost use Rattle.run_rules.specs.Access.{in_front, loaded_slots, loaded_value};
ghost use Rattle.run_names.specs.Values.Answer.{Loads, WantsRoom};

use crate::values::Slot;
use crate::values::displaced::behind;
use ir_eval::{Pointer, Scalar};
use ir_memory::{Leaf, Memory, MemoryFault};
use ir_tables::UndefinedKind;

/// Loads a value of one leaf. It is refused exactly where the load is undefined, and wants no memory.
#[inline(always)]
pub fn load_leaf(
    memory: &Memory,
    address: Scalar,
    align: u32,
    slot: Slot,
) -> Result<Scalar, UndefinedKind>
    requires address { IsAddress memory.now.list address }
    requires align { IsAlignment align }
    requires leaf { IsLeaf slot.leaf }
    ensures { in_front result (Ok []) ≡ loaded_value memory.now address align (slot ∷ []) }
{
    let Scalar::Ptr(pointer) = address else {
        return Err(UndefinedKind::PoisonAddress);
    };
    let place = Scalar::Ptr(behind(pointer, slot.offset()));
    memory.load(place, slot.leaf(), align)
}

/// The integer of so many bytes that a value is, where few steps tell its load. Where the count is written out, the load is compiled for it.
#[inline(always)]
fn integer_at(
    memory: &Memory,
    pointer: Pointer,
    align: u32,
    slot: Slot,
    count: usize,
) -> Option<u128>
    requires pointer { IsKnown memory.now.list pointer }
    requires align { IsAlignment align }
    requires leaf { slot.leaf ≡ kinds.Int (8 * count) }
    requires some { 1 ≤ count }
    requires few { count ≤ 8 }
    ensures { IfSome result (λ n. loaded_value memory.now (scalar.Ptr pointer) align (slot ∷ []) ≡ Ok (scalar.Int n ∷ [])) }
{
    memory.load_plain(behind(pointer, slot.offset()), count, align)
}

/// Loads a value that is one integer of 8, 16, 32 or 64 bits, where few steps tell the load. None says nothing of it.
#[inline(always)]
pub fn load_plain(memory: &Memory, pointer: Pointer, align: u32, slot: Slot) -> Option<u128>
    requires pointer { IsKnown memory.now.list pointer }
    requires align { IsAlignment align }
    ensures { IfSome result (λ n. loaded_value memory.now (scalar.Ptr pointer) align (slot ∷ []) ≡ Ok (scalar.Int n ∷ [])) }
{
    let Leaf::Int(width) = slot.leaf() else {
        return None;
    };
    // Widths are told apart in two halves, since a table of all four would take more steps.
    if width < 32 {
        match width {
            8 => integer_at(memory, pointer, align, slot, 1),
            16 => integer_at(memory, pointer, align, slot, 2),
            _ => None,
        }
    } else {
        match width {
            32 => integer_at(memory, pointer, align, slot, 4),
            64 => integer_at(memory, pointer, align, slot, 8),
            _ => None,
        }
    }
}

/// Adds the leaves of a value in their order, up to one whose load is undefined. The first is accessed with that alignment, the
/// others with 1.
fn push_leaves(
    memory: &Memory,
    pointer: Pointer,
    align: u32,
    slots: &[Slot],
    into: &mut Vec<Scalar>,
) -> Result<(), MemoryFault>
    requires pointer { IsKnown memory.now.list pointer }
    requires align { IsAlignment align }
    requires leaves { All (λ s. IsLeaf s.leaf) slots.now }
    ensures ok { OnOk result ((vs : List Leaves) × (loaded_slots memory.now pointer align slots.now ≡ Ok vs) × (into.new.items ≡ into.old.items ++ vs)) }
    ensures err { OnErr result ((vs : List Leaves) × (into.new.items ≡ into.old.items ++ vs)) }
    ensures why { IfErr result (WantsRoom (loaded_slots memory.now pointer align slots.now) (vec_capacity into.old) (vec_len into.old + length slots.now)) }
{
    let mut asked = align;
    'slots: for slot in slots {
        let place = Scalar::Ptr(behind(pointer, slot.offset()));
        let leaf = memory.load(place, slot.leaf(), asked)?;
        into.push(leaf)?;
        asked = 1;
    }
    Ok(())
}

/// Adds the leaves of a value at an address, in their order. Where the load is undefined, or memory is wanted, nothing is added;
/// memory is wanted only where there was no room for all of them.
#[inline(never)]
pub fn load_value(
    memory: &Memory,
    address: Scalar,
    align: u32,
    slots: &[Slot],
    into: &mut Vec<Scalar>,
) -> Result<(), MemoryFault>
    requires address { IsAddress memory.now.list address }
    requires align { IsAlignment align }
    requires leaves { All (λ s. IsLeaf s.leaf) slots.now }
    ensures value { Loads (loaded_value memory.now address align slots.now) into.old.items into.new.items result }
    ensures memory { result ≡ Err MemoryFault.Memory → vec_capacity into.old < vec_len into.old + length slots.now }
{
    let Scalar::Ptr(pointer) = address else {
        return Err(MemoryFault::Undefined(UndefinedKind::PoisonAddress));
    };
    let before = into.len();
    let done = push_leaves(memory, pointer, align, slots, into);
    if done.is_err() {
        into.truncate(before);
    }
    done
}
