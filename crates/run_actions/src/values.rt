//! Instructions whose result may have many leaves.
ghost use Rattle.std.specs.Prelude.{◌≡◌, ◌<◌, All, OnErr, OnOk, length, map};
ghost use Rattle.ir_eval.specs.Operators.{freeze_of, select_of};
ghost use Rattle.ir_eval.specs.Value.{IsInteger};
ghost use Rattle.run_rules.specs.Action.{Freeze, Gather, Select};
ghost use Rattle.run_actions.specs.Stack.Origins.{origin_of};
ghost use Rattle.run_actions.specs.Carried.{IsCarriedOut};
ghost use Rattle.run_actions.specs.Operands.{HasPlaces, IsThere, leaf_of, MayGoOn};
ghost use Rattle.run_actions.specs.Values.{arm_of, IsArmThere, IsPartThere, part_of};

use crate::result::{give, give_all, only};
use crate::stack::{Origin, Stack};
use ir_eval::Scalar;
use std::alloc::AllocError;

/// A leaf of each of the two operands of a select.
///
/// ```
/// // of `select i1 %c, i32 %a, i32 7`, where `%a` stands at place 1
/// Arm { first: Origin::Held(1), second: Origin::Known(Scalar::Int(7)) }
/// ```
#[derive(Clone, Copy, Debug, PartialEq, Eq)]
pub struct Arm {
    pub first: Origin,
    pub second: Origin,
}

/// A leaf of a value that is frozen, and whether it is a pointer.
///
/// ```
/// FrozenLeaf { pointer: false, value: Origin::Held(1) } // of `freeze i32 %a`, where `%a` stands at place 1
/// ```
#[derive(Clone, Copy, Debug, PartialEq, Eq)]
pub struct FrozenLeaf {
    pub pointer: bool,
    pub value: Origin,
}

/// The parts of a value put together or taken out (LangRef, "extractvalue Instruction", "insertvalue Instruction"). What `room` has is
/// lost.
///
/// Refused memory leaves all frames as they were.
#[inline(never)]
pub fn gather(
    stack: &mut Stack,
    to: u32,
    value: &[Origin],
    room: &mut Vec<Scalar>,
) -> Result<(), AllocError>
    requires on { MayGoOn stack.old }
    requires there { All (IsThere stack.old) value.now }
    requires places { HasPlaces stack.old to (length value.now) }
    ensures ok { OnOk result (IsCarriedOut (Gather to (map origin_of value.now)) stack.old stack.new) }
    ensures err { OnErr result (stack.new ≡ stack.old) }
{
    room.clear();
    stack.read_all(value, room)?;
    give_all(stack, to, room);
    Ok(())
}

// What the condition chooses of each pair of leaves, in the place of what `room` had.
#[inline(never)]
fn choose_all(
    stack: &Stack,
    condition: Scalar,
    arms: &[Arm],
    room: &mut Vec<Scalar>,
) -> Result<(), AllocError>
    requires condition { IsInteger 1 condition }
    requires arms { All (IsArmThere stack.now) arms.now }
    ensures ok { OnOk result (room.new.items ≡ map (λ a. select_of condition (leaf_of stack.now a.first) (leaf_of stack.now a.second)) arms.now) }
    ensures some { OnErr result (0 < length arms.now) }
{
    room.clear();
    room.reserve(arms.len())?;
    'choosing: for place in 0..arms.len() {
        let arm = arms[place];
        let leaf = ir_eval::select(condition, stack.read(&arm.first), stack.read(&arm.second));
        match room.push(leaf) {
            Ok(()) => {}
            Err(_) => unreachable!(),
        }
    }
    Ok(())
}

/// The first operand where the condition is 1, the second where it is 0, and poison where it is poison, leaf by leaf (LangRef, "select
/// Instruction"). What `room` has is lost.
///
/// Only a value of more than one leaf wants memory. Refused memory leaves all frames as they were.
pub fn select(
    stack: &mut Stack,
    to: u32,
    condition: &Origin,
    arms: &[Arm],
    room: &mut Vec<Scalar>,
) -> Result<(), AllocError>
    requires on { MayGoOn stack.old }
    requires there { IsThere stack.old condition.now }
    requires condition { IsInteger 1 (leaf_of stack.old condition.now) }
    requires arms { All (IsArmThere stack.old) arms.now }
    requires places { HasPlaces stack.old to (length arms.now) }
    ensures ok { OnOk result (IsCarriedOut (Select to (origin_of condition.now) (map arm_of arms.now)) stack.old stack.new) }
    ensures err { OnErr result (stack.new ≡ stack.old) }
    ensures wide { OnErr result (1 < length arms.now) }
{
    let chooses = stack.read(condition);
    if arms.len() == 1 {
        let arm = only(arms);
        let leaf = ir_eval::select(chooses, stack.read(&arm.first), stack.read(&arm.second));
        give(stack, to, leaf);
        return Ok(());
    }
    choose_all(stack, chooses, arms, room)?;
    give_all(stack, to, room);
    Ok(())
}

// What freezing gives for each leaf, in the place of what `room` had.
#[inline(never)]
fn freeze_all(stack: &Stack, value: &[FrozenLeaf], room: &mut Vec<Scalar>) -> Result<(), AllocError>
    requires { All (IsPartThere stack.now) value.now }
    ensures ok { OnOk result (room.new.items ≡ map (λ p. freeze_of p.pointer (leaf_of stack.now p.value)) value.now) }
    ensures some { OnErr result (0 < length value.now) }
{
    room.clear();
    room.reserve(value.len())?;
    'freezing: for place in 0..value.len() {
        let part = value[place];
        let leaf = ir_eval::freeze(part.pointer, stack.read(&part.value));
        match room.push(leaf) {
            Ok(()) => {}
            Err(_) => unreachable!(),
        }
    }
    Ok(())
}

/// The value, with null or 0 in the place of poison, leaf by leaf (LangRef, "freeze Instruction"). What `room` has is lost.
///
/// Only a value of more than one leaf wants memory. Refused memory leaves all frames as they were.
pub fn freeze(
    stack: &mut Stack,
    to: u32,
    value: &[FrozenLeaf],
    room: &mut Vec<Scalar>,
) -> Result<(), AllocError>
    requires on { MayGoOn stack.old }
    requires there { All (IsPartThere stack.old) value.now }
    requires places { HasPlaces stack.old to (length value.now) }
    ensures ok { OnOk result (IsCarriedOut (Freeze to (map part_of value.now)) stack.old stack.new) }
    ensures err { OnErr result (stack.new ≡ stack.old) }
    ensures wide { OnErr result (1 < length value.now) }
{
    if value.len() == 1 {
        let part = only(value);
        let leaf = ir_eval::freeze(part.pointer, stack.read(&part.value));
        give(stack, to, leaf);
        return Ok(());
    }
    freeze_all(stack, value, room)?;
    give_all(stack, to, room);
    Ok(())
}
