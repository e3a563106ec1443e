//! Room that instructions use.
ghost use Rattle.std.specs.Prelude.{◌≡◌, ◌≤◌, All, OnOk, length, map, take};
ghost use Rattle.run_actions.specs.Operands.{IsThere, leaf_of};

use ir_eval::Scalar;
use run_actions::stack::{Origin, Stack};
use std::alloc::AllocError;

/// Room that instructions use again and again: for the leaves of a value, and for the bytes that one writes.
///
/// ```
/// let mut room = Buffers { leaves: Vec::new(alloc), written: Vec::new(alloc) };
/// ```
#[derive(Drop)]
pub struct Buffers {
    pub leaves: Vec<Scalar>,
    pub written: Vec<u8>,
}

/// Makes room for so many leaves.
#[inline(always)]
fn widen(room: &mut Vec<Scalar>, count: usize) -> Result<(), AllocError>
    ensures { OnOk result (count ≤ length room.new.items) }
{
    if room.len() < count {
        room.resize(count, Scalar::Poison)?;
    }
    Ok(())
}

/// Sets the front of the room to what the leaves are, in the newest frame.
#[inline(always)]
fn set_front(stack: &Stack, origins: &[Origin], room: &mut [Scalar])
    requires there { All (IsThere stack.now) origins.now }
    requires room { length origins.now ≤ length room.old }
    ensures front { take (length origins.now) room.new ≡ map (leaf_of stack.now) origins.now }
    ensures long { length room.new ≡ length room.old }
{
    'reading: for place in 0..origins.len() {
        room[place] = stack.read(&origins[place]);
    }
}

/// Puts what the leaves are, in the newest frame, into the front of the room. They are written over what stands there, and not put behind
/// one another, which would ask for room leaf by leaf.
#[inline(always)]
pub(crate) fn read_leaves(
    stack: &Stack,
    origins: &[Origin],
    room: &mut Vec<Scalar>,
) -> Result<(), AllocError>
    requires { All (IsThere stack.now) origins.now }
    ensures front { OnOk result (take (length origins.now) room.new.items ≡ map (leaf_of stack.now) origins.now) }
    ensures long { OnOk result (length origins.now ≤ length room.new.items) }
{
    widen(room, origins.len())?;
    set_front(stack, origins, room);
    Ok(())
}

/// As many leaves from the front of the room.
#[inline(always)]
pub(crate) fn front<'r>(room: &'r [Scalar], origins: &[Origin]) -> &'r [Scalar]
    requires { length origins.now ≤ length room.now }
    ensures { result.now ≡ take (length origins.now) room.now }
{
    &room[..origins.len()]
}
