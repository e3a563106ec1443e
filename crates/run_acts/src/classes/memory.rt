//! Instructions that see memory.
ghost use Rattle.std.specs.Prelude.{◌≡◌, ◌≤◌, All, OnErr, length, map, take, zip};
ghost use Rattle.ir_memory.specs.Given.{IsAddress, IsAlignment};
ghost use Rattle.ir_memory.specs.Memory.{HasFreeAddresses};
ghost use Rattle.module_arena.specs.Lists.{Lists};
ghost use Rattle.run_rules.specs.Action.{Store};
ghost use Rattle.run_actions.specs.Stack.Origins.{origin_of};
ghost use Rattle.run_actions.specs.Operands.{IsThere, MayGoOn, leaf_of};
ghost use Rattle.run_actions.specs.Accesses.Done.{Accesses, IsDone};
ghost use Rattle.run_decode.specs.declared.flat.action.Action.TheVariants as flat;
ghost use Rattle.run_decode.specs.Flat.Flat.{action_of};
ghost use Rattle.run_acts.specs.Classes.Ends.{FramesStay};
ghost use Rattle.run_acts.specs.Classes.May.{IsStorable, MayAct};

use crate::classes::distance::reach_of_terms;
use crate::classes::operand::origin;
use ir_eval::Scalar;
use ir_memory::{Memory, MemoryFault};
use run_actions::accesses::{allocate, displace, load, store};
use run_actions::stack::{Origin, Stack};
use run_decode::flat::{Action, LeafAt, Pools, Span};
use run_names::values::Slot;

/// The first so many items.
#[inline]
fn front<T: Copy>(items: &[T], count: usize) -> &[T]
    requires { count ≤ length items.now }
    ensures { result.now ≡ take count items.now }
{
    &items[..count]
}

/// Stores leaves by their slots, no more than there are of either. The alignment is in bytes. What `room` has is lost.
#[inline]
fn store_pairs(
    stack: &mut Stack,
    memory: &mut Memory,
    align: u32,
    address: &Origin,
    slots: &[Slot],
    value: &[Origin],
    room: &mut Vec<Scalar>,
) -> Result<(), MemoryFault>
    requires on { MayGoOn stack.old }
    requires there { IsThere stack.old address.now }
    requires address { IsAddress memory.old.list (leaf_of stack.old address.now) }
    requires align { IsAlignment align }
    requires pairs { All (IsStorable (length memory.old.list) stack.old) (zip slots.now value.now) }
    ensures stores { Accesses (Store align (origin_of address.now) (zip slots.now (map origin_of value.now))) result stack.old stack.new memory.old memory.new }
    ensures err { OnErr result (stack.new ≡ stack.old) }
{
    let count = slots.len().min(value.len());
    let kinds = front(slots, count);
    let leaves = front(value, count);
    store(stack, memory, align, address, kinds, leaves, room)
}

/// A load. The action serves the clauses. What `room` has is lost.
///
/// Refused where the load is undefined; only a value of more than one leaf wants memory. A refusal leaves the frames as they were.
#[inline(always)]
pub fn act_on_load(
    stack: &mut Stack,
    memory: &Memory,
    pools: &Pools,
    _action: &Action,
    to: u32,
    align: u32,
    address: LeafAt,
    slots: Span,
    room: &mut Vec<Scalar>,
) -> Result<(), MemoryFault>
    requires is { _action.now ≡ flat.Load to align address slots }
    requires may { MayAct (length memory.now.list) pools.now _action.now stack.old }
    ensures accesses { (a : Lists) → Accesses (action_of pools.now a _action.now) result stack.old stack.new memory.now memory.now }
    ensures err { OnErr result (stack.new ≡ stack.old) }
{
    let place = origin(pools, address);
    let kinds = pools.slots.in_span(slots);
    load(stack, memory, to, align, &place, kinds, room)
}

/// A store. The action serves the clauses. What `room` has is lost.
///
/// Refused where the store is undefined; memory is wanted by pointers, and by a value of more than one leaf. A refusal leaves the frames
/// as they were.
#[inline(always)]
pub fn act_on_store(
    stack: &mut Stack,
    memory: &mut Memory,
    pools: &Pools,
    _action: &Action,
    align: u32,
    address: LeafAt,
    slots: Span,
    value: Span,
    room: &mut Vec<Scalar>,
) -> Result<(), MemoryFault>
    requires is { _action.now ≡ flat.Store align address slots value }
    requires may { MayAct (length memory.old.list) pools.now _action.now stack.old }
    ensures accesses { (a : Lists) → Accesses (action_of pools.now a _action.now) result stack.old stack.new memory.old memory.new }
    ensures err { OnErr result (stack.new ≡ stack.old) }
{
    let place = origin(pools, address);
    let kinds = pools.slots.in_span(slots);
    let leaves = pools.origins.in_span(value);
    store_pairs(stack, memory, align, &place, kinds, leaves, room)
}

/// An alloca. The action serves the clauses.
///
/// Refused where the count is poison, or the limit on live bytes would be passed; then the frames are as they were. It may always want
/// memory; what frames and memory are then is not told.
#[inline]
pub fn act_on_alloca(
    stack: &mut Stack,
    memory: &mut Memory,
    pools: &Pools,
    _action: &Action,
    to: u32,
    align: u32,
    size: u64,
    count: LeafAt,
) -> Result<(), MemoryFault>
    requires is { _action.now ≡ flat.Allocate to align size count }
    requires may { MayAct (length memory.old.list) pools.now _action.now stack.old }
    requires next { HasFreeAddresses memory.old }
    ensures accesses { (a : Lists) → Accesses (action_of pools.now a _action.now) result stack.old stack.new memory.old memory.new }
    ensures frames { FramesStay result stack.old stack.new }
{
    let number = origin(pools, count);
    allocate(stack, memory, to, size, align, &number)
}

/// An address that is moved. The action serves the clauses.
#[inline]
pub fn act_on_address(
    stack: &mut Stack,
    memory: &Memory,
    pools: &Pools,
    _action: &Action,
    to: u32,
    inbounds: bool,
    base: LeafAt,
    terms: Span,
    sum: u32,
)
    requires is { _action.now ≡ flat.Displace to inbounds base terms sum }
    requires may { MayAct (length memory.now.list) pools.now _action.now stack.old }
    ensures { (a : Lists) → IsDone (action_of pools.now a _action.now) stack.old stack.new memory.now memory.now }
{
    let distance = reach_of_terms(stack, pools, terms, sum);
    let place = origin(pools, base);
    displace(stack, memory, to, inbounds, &place, distance);
}
