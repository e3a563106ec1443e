//! Leaves in the pool, by their places in the newest frame.
ghost use Rattle.std.specs.Prelude.{◌≡◌, ◌+◌, ◌-◌, ◌<◌, ◌≤◌, ◌++◌, All, drop, length, max, replicate, vec_capacity, vec_len, OnErr, OnOk};
ghost use Rattle.ir_eval.specs.declared.value.Scalar.TheVariants.{Poison};
ghost use Rattle.run_rules.specs.Frame.{with_leaves};
ghost use Rattle.run_actions.specs.Stack.Origins.{had, had_all, IsIn, origin_of};

use crate::stack::mark::Mark;
use crate::stack::origin::Origin;
use ir_eval::Scalar;
use std::alloc::AllocError;

/// What the leaf is, in the frame whose leaves begin at `first`.
#[inline]
pub fn read_at(leaves: &[Scalar], first: usize, origin: &Origin) -> Scalar
    requires there { first ≤ length leaves.now }
    requires within { IsIn (length leaves.now - first) origin.now }
    ensures { result ≡ had (drop first leaves.now) (origin_of origin.now) }
{
    match *origin {
        Origin::Held(place) => leaves[first + place as usize],
        Origin::Known(leaf) => leaf,
    }
}

/// What the leaves are, behind those that are there already. Refused memory changes nothing.
#[inline(always)]
pub fn read_into(
    leaves: &[Scalar],
    first: usize,
    origins: &[Origin],
    into: &mut Vec<Scalar>,
) -> Result<(), AllocError>
    requires there { first ≤ length leaves.now }
    requires within { All (IsIn (length leaves.now - first)) origins.now }
    ensures ok { OnOk result (into.new.items ≡ into.old.items ++ had_all (drop first leaves.now) origins.now) }
    ensures err { OnErr result (into.new.items ≡ into.old.items) }
{
    into.reserve(origins.len())?;
    'reading: for place in 0..origins.len() {
        match into.push(read_at(leaves, first, &origins[place])) {
            Ok(()) => {}
            Err(_) => unreachable!(),
        }
    }
    Ok(())
}

/// Sets a value's leaves one after another from that place of the pool on.
pub fn write_at(leaves: &mut [Scalar], at: usize, value: &[Scalar])
    requires { at + length value.now ≤ length leaves.old }
    ensures { leaves.new ≡ with_leaves leaves.old at value.now }
{
    'writing: for place in 0..value.len() {
        leaves[at + place] = value[place];
    }
}

/// The leaves of a frame that begins, behind all others: its arguments, and poison for each further leaf.
pub fn fill(leaves: &mut Vec<Scalar>, arguments: &[Scalar], count: usize)
    requires arguments { length arguments.now ≤ count }
    requires room { vec_len leaves.old + count ≤ vec_capacity leaves.old }
    ensures { leaves.new.items ≡ leaves.old.items ++ (arguments.now ++ replicate (count - length arguments.now) Poison) }
{
    let end = leaves.len() + count;
    match leaves.extend_from_slice(arguments) {
        Ok(()) => {}
        Err(_) => unreachable!(),
    }
    match leaves.resize(end, Scalar::Poison) {
        Ok(()) => {}
        Err(_) => unreachable!(),
    }
}

/// Makes room for a frame with so many leaves, for its mark, and for its widest edge. Refused memory changes nothing.
pub fn make_room(
    leaves: &mut Vec<Scalar>,
    below: &mut Vec<Mark>,
    scratch: &mut Vec<Scalar>,
    count: usize,
    widest: usize,
) -> Result<(), AllocError>
    ensures leaves { leaves.new.items ≡ leaves.old.items }
    ensures below { below.new.items ≡ below.old.items }
    ensures room { OnOk result (vec_len leaves.new + count ≤ vec_capacity leaves.new) }
    ensures mark { OnOk result (vec_len below.new < vec_capacity below.new) }
    ensures widest { OnOk result (length scratch.new.items ≡ max (length scratch.old.items) widest) }
    ensures err { OnErr result (length scratch.new.items ≡ length scratch.old.items) }
{
    leaves.reserve(count)?;
    below.reserve(1)?;
    widen(scratch, widest)
}

// Makes the scratch at least as long. Refused memory changes nothing.
fn widen(scratch: &mut Vec<Scalar>, widest: usize) -> Result<(), AllocError>
    ensures ok { OnOk result (length scratch.new.items ≡ max (length scratch.old.items) widest) }
    ensures err { OnErr result (length scratch.new.items ≡ length scratch.old.items) }
{
    if scratch.len() < widest {
        scratch.resize(widest, Scalar::Poison)?;
    }
    Ok(())
}
