//! Stores (LangRef, "store Instruction").
ghost use Rattle.std.specs.Prelude.{◌≡◌, ◌≢◌, ◌∷◌, [], All, Ok, OnErr, length, map, true, false, zip};
ghost use Rattle.ir_memory.specs.Answer.{Answers, IsInteger, Keeps, NeedsNone};
ghost use Rattle.ir_memory.specs.Given.{IsAddress, IsAlignment, IsLeaf};
ghost use Rattle.run_rules.specs.Access.{stored_value};
ghost use Rattle.run_rules.specs.Action.{Store};
ghost use Rattle.run_actions.specs.Stack.Origins.{origin_of};
ghost use Rattle.run_actions.specs.Operands.{IsThere, leaf_of, MayGoOn};
ghost use Rattle.typed_runs.specs.Kinds.{IsOf};
ghost use Rattle.typed_runs.specs.States.{AreStored};
ghost use Rattle.run_actions.specs.Accesses.Done.{Accesses, IsStoredAt};

use crate::only;
use crate::stack::{Origin, Stack};
use ir_eval::Scalar;
use ir_memory::{Memory, MemoryFault};
use run_names::values::{Slot, store_leaf, store_plain, store_value};

/// Stores one leaf, whatever it is.
#[inline(always)]
fn put_one(
    stack: &Stack,
    memory: &mut Memory,
    align: u32,
    address: Scalar,
    slot: Slot,
    value: &Origin,
) -> Result<(), MemoryFault>
    requires there { IsThere stack.now value.now }
    requires address { IsAddress memory.old.list address }
    requires align { IsAlignment align }
    requires leaf { IsLeaf slot.leaf }
    requires value { IsOf (length memory.old.list) slot.leaf (leaf_of stack.now value.now) }
    ensures answer { Answers (stored_value address align ((slot, leaf_of stack.now value.now) ∷ []) memory.old) memory.old memory.new result }
    ensures kept { Keeps memory.old memory.new }
    ensures memory { IsInteger slot.leaf → NeedsNone result }
{
    let leaf = stack.read(value);
    store_leaf(memory, address, align, slot, leaf)
}

/// Stores the leaves of a value that has none, or more than one. The latter take room.
#[inline(never)]
fn put_many(
    stack: &Stack,
    memory: &mut Memory,
    align: u32,
    address: Scalar,
    slots: &[Slot],
    value: &[Origin],
    room: &mut Vec<Scalar>,
) -> Result<(), MemoryFault>
    requires address { IsAddress memory.old.list address }
    requires align { IsAlignment align }
    requires leaves { All (λ s. IsLeaf s.leaf) slots.now }
    requires count { length value.now ≡ length slots.now }
    requires not_one { length slots.now ≢ 1 }
    requires there { All (IsThere stack.now) value.now }
    requires values { AreStored (length memory.old.list) (zip slots.now (map (leaf_of stack.now) value.now)) }
    ensures stored { IsStoredAt address align (zip slots.now (map (leaf_of stack.now) value.now)) result memory.old memory.new }
    ensures kept { Keeps memory.old memory.new }
{
    if slots.is_empty() {
        return store_value(memory, address, align, &[], &[]);
    }
    room.clear();
    match stack.read_all(value, room) {
        Ok(()) => store_value(memory, address, align, slots, room),
        Err(_) => Err(MemoryFault::Memory),
    }
}

/// Stores the leaves of a value, whatever they are. Only more leaves than one take room for them.
#[cold]
#[inline(never)]
fn put_any(
    stack: &Stack,
    memory: &mut Memory,
    align: u32,
    address: Scalar,
    slots: &[Slot],
    value: &[Origin],
    room: &mut Vec<Scalar>,
) -> Result<(), MemoryFault>
    requires address { IsAddress memory.old.list address }
    requires align { IsAlignment align }
    requires leaves { All (λ s. IsLeaf s.leaf) slots.now }
    requires count { length value.now ≡ length slots.now }
    requires there { All (IsThere stack.now) value.now }
    requires values { AreStored (length memory.old.list) (zip slots.now (map (leaf_of stack.now) value.now)) }
    ensures stored { IsStoredAt address align (zip slots.now (map (leaf_of stack.now) value.now)) result memory.old memory.new }
    ensures kept { Keeps memory.old memory.new }
{
    if slots.len() == 1 {
        let leaf = only(value);
        return put_one(stack, memory, align, address, only(slots), &leaf);
    }
    put_many(stack, memory, align, address, slots, value, room)
}

/// The same, where the call is made apart from what is compiled in line.
#[inline(always)]
fn put_further(
    stack: &Stack,
    memory: &mut Memory,
    align: u32,
    address: Scalar,
    slots: &[Slot],
    value: &[Origin],
    room: &mut Vec<Scalar>,
) -> Result<(), MemoryFault>
    requires address { IsAddress memory.old.list address }
    requires align { IsAlignment align }
    requires leaves { All (λ s. IsLeaf s.leaf) slots.now }
    requires count { length value.now ≡ length slots.now }
    requires there { All (IsThere stack.now) value.now }
    requires values { AreStored (length memory.old.list) (zip slots.now (map (leaf_of stack.now) value.now)) }
    ensures stored { IsStoredAt address align (zip slots.now (map (leaf_of stack.now) value.now)) result memory.old memory.new }
    ensures kept { Keeps memory.old memory.new }
{
    match put_any(stack, memory, align, address, slots, value, room) {
        Ok(()) => Ok(()),
        Err(refusal) => Err(refusal),
    }
}

/// The one leaf of a value, where it stands.
#[inline(always)]
fn one_leaf(value: &[Origin]) -> &Origin
    requires { length value.now ≡ 1 }
    ensures { value.now ≡ result.now ∷ [] }
{
    &value[0]
}

/// Stores a value that is one integer, where few steps tell the store. Where it answers false, it says nothing of the store, and memory
/// is unchanged.
#[inline(always)]
fn put_integer(
    stack: &Stack,
    memory: &mut Memory,
    align: u32,
    address: Scalar,
    slots: &[Slot],
    value: &[Origin],
) -> bool
    requires address { IsAddress memory.old.list address }
    requires align { IsAlignment align }
    requires count { length value.now ≡ length slots.now }
    requires there { All (IsThere stack.now) value.now }
    ensures stored { result ≡ true → stored_value address align (zip slots.now (map (leaf_of stack.now) value.now)) memory.old ≡ Ok memory.new }
    ensures unchanged { result ≡ false → memory.new ≡ memory.old }
    ensures kept { Keeps memory.old memory.new }
{
    if slots.len() != 1 {
        return false;
    }
    let Scalar::Ptr(pointer) = address else {
        return false;
    };
    let Scalar::Int(number) = stack.read(one_leaf(value)) else {
        return false;
    };
    store_plain(memory, pointer, align, only(slots), number)
}

/// Stores the leaves of a value: one integer in few steps, where these tell the store.
#[inline(always)]
fn put_value(
    stack: &Stack,
    memory: &mut Memory,
    align: u32,
    address: Scalar,
    slots: &[Slot],
    value: &[Origin],
    room: &mut Vec<Scalar>,
) -> Result<(), MemoryFault>
    requires address { IsAddress memory.old.list address }
    requires align { IsAlignment align }
    requires leaves { All (λ s. IsLeaf s.leaf) slots.now }
    requires count { length value.now ≡ length slots.now }
    requires there { All (IsThere stack.now) value.now }
    requires values { AreStored (length memory.old.list) (zip slots.now (map (leaf_of stack.now) value.now)) }
    ensures stored { IsStoredAt address align (zip slots.now (map (leaf_of stack.now) value.now)) result memory.old memory.new }
    ensures kept { Keeps memory.old memory.new }
{
    if put_integer(stack, memory, align, address, slots, value) {
        return Ok(());
    }
    put_further(stack, memory, align, address, slots, value, room)
}

/// Stores a value at an address, leaf by leaf. The alignment is in bytes. What `room` has is lost.
///
/// Refused where the store is undefined, and then leaves before that may have been written: such a run has no further step. Memory is
/// wanted by pointers, and by a value of more than one leaf. A refusal leaves the frames as they were.
#[inline(always)]
pub fn store(
    stack: &mut Stack,
    memory: &mut Memory,
    align: u32,
    address: &Origin,
    slots: &[Slot],
    value: &[Origin],
    room: &mut Vec<Scalar>,
) -> Result<(), MemoryFault>
    requires on { MayGoOn stack.old }
    requires there { IsThere stack.old address.now }
    requires address { IsAddress memory.old.list (leaf_of stack.old address.now) }
    requires align { IsAlignment align }
    requires leaves { All (λ s. IsLeaf s.leaf) slots.now }
    requires count { length value.now ≡ length slots.now }
    requires values_there { All (IsThere stack.old) value.now }
    requires values { AreStored (length memory.old.list) (zip slots.now (map (leaf_of stack.old) value.now)) }
    ensures stores { Accesses (Store align (origin_of address.now) (zip slots.now (map origin_of value.now))) result stack.old stack.new memory.old memory.new }
    ensures err { OnErr result (stack.new ≡ stack.old) }
    ensures kept { Keeps memory.old memory.new }
{
    let place = stack.read(address);
    match put_value(stack, memory, align, place, slots, value, room) {
        Ok(()) => {
            stack.move_on();
            Ok(())
        }
        Err(fault) => Err(fault),
    }
}
