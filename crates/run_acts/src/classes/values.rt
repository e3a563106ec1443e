//! Instructions over values that may have many leaves.
ghost use Rattle.std.specs.Prelude.{◌≡◌, ℕ, OnErr, OnOk, true};
ghost use Rattle.module_arena.specs.Lists.{Lists};
ghost use Rattle.run_rules.specs.Wants.{wants_memory};
ghost use Rattle.run_actions.specs.Carried.{IsCarriedOut};
ghost use Rattle.run_decode.specs.Flat.Flat.{action_of};
ghost use Rattle.run_acts.specs.Classes.Groups.{is_value};
ghost use Rattle.run_acts.specs.Classes.May.{MayAct};

use crate::classes::operand::origin;
use ir_eval::Scalar;
use run_actions::stack::Stack;
use run_actions::{freeze, gather, select};
use run_decode::flat::{Action, Pools};
use std::alloc::AllocError;

/// A select, a freeze, or parts of values put together. What `room` has is lost.
///
/// Only a value of more than one leaf, or of parts, wants memory. Refused memory leaves all frames as they were.
#[inline(never)]
pub fn act_on_values(
    stack: &mut Stack,
    pools: &Pools,
    action: Action,
    room: &mut Vec<Scalar>,
) -> Result<(), AllocError>
    requires group { is_value action ≡ true }
    requires may { (count : ℕ) × MayAct count pools.now action stack.old }
    ensures ok { OnOk result ((a : Lists) → IsCarriedOut (action_of pools.now a action) stack.old stack.new) }
    ensures wants { OnErr result ((a : Lists) → wants_memory (action_of pools.now a action) ≡ true) }
    ensures err { OnErr result (stack.new ≡ stack.old) }
{
    match action {
        Action::Select {
            to,
            condition,
            arms,
        } => {
            let chooses = origin(pools, condition);
            let both = pools.arms.in_span(arms);
            select(stack, to, &chooses, both, room)
        }
        Action::Freeze { to, parts } => {
            let leaves = pools.parts.in_span(parts);
            freeze(stack, to, leaves, room)
        }
        Action::Gather { to, value } => {
            let leaves = pools.origins.in_span(value);
            gather(stack, to, leaves, room)
        }
        _ => unreachable!(),
    }
}
