//! Ends of blocks that go to a block, or nowhere.
ghost use Rattle.std.specs.Prelude.{◌≡◌, ℕ};
ghost use Rattle.module_arena.specs.Lists.{Lists};
ghost use Rattle.run_actions.specs.Carried.{Acts, IsCarriedOut, IsUndefined};
ghost use Rattle.run_decode.specs.declared.flat.action.Action.TheVariants as flat;
ghost use Rattle.run_decode.specs.Flat.Flat.{action_of};
ghost use Rattle.run_acts.specs.Classes.May.{MayAct};

use crate::classes::operand::{origin, way};
use ir_tables::UndefinedKind;
use run_actions::stack::Stack;
use run_actions::{branch, jump, switch, unreachable};
use run_decode::flat::{Action, LeafAt, Pools, Span};

/// A way to one block. The action serves the clauses.
#[inline(always)]
pub fn act_on_jump(stack: &mut Stack, pools: &Pools, _action: &Action, edge: u32)
    requires is { _action.now ≡ flat.Jump edge }
    requires may { (count : ℕ) × MayAct count pools.now _action.now stack.old }
    ensures { (a : Lists) → IsCarriedOut (action_of pools.now a _action.now) stack.old stack.new }
{
    let only_way = way(pools, edge);
    jump(stack, only_way, pools.moves.items());
}

/// A way to one of two blocks. The action serves the clauses.
///
/// Refused where that is undefined.
#[inline(always)]
pub fn act_on_branch(
    stack: &mut Stack,
    pools: &Pools,
    _action: &Action,
    condition: LeafAt,
    then_edge: u32,
    else_edge: u32,
) -> Result<(), UndefinedKind>
    requires is { _action.now ≡ flat.Branch condition then_edge else_edge }
    requires may { (count : ℕ) × MayAct count pools.now _action.now stack.old }
    ensures { (a : Lists) → Acts (action_of pools.now a _action.now) result stack.old stack.new }
{
    let then_way = way(pools, then_edge);
    let else_way = way(pools, else_edge);
    let moves = pools.moves.items();
    // Last, so that it is looked once at where the condition is had from.
    let chooses = origin(pools, condition);
    branch(stack, &chooses, then_way, else_way, moves)
}

/// A way to one of many blocks. The action serves the clauses.
///
/// Refused where that is undefined.
#[inline(always)]
pub fn act_on_switch(
    stack: &mut Stack,
    pools: &Pools,
    _action: &Action,
    value: LeafAt,
    otherwise: u32,
    cases: Span,
) -> Result<(), UndefinedKind>
    requires is { _action.now ≡ flat.Switch value otherwise cases }
    requires may { (count : ℕ) × MayAct count pools.now _action.now stack.old }
    ensures { (a : Lists) → Acts (action_of pools.now a _action.now) result stack.old stack.new }
{
    let number = origin(pools, value);
    let other_way = way(pools, otherwise);
    let listed = pools.cases.in_span(cases);
    switch(stack, &number, other_way, listed, pools.moves.items())
}

/// An end that is not to be come to: why that is undefined. The action serves the clauses.
#[inline(always)]
pub fn act_on_unreachable(stack: &Stack, pools: &Pools, _action: &Action) -> UndefinedKind
    requires is { _action.now ≡ flat.Unreachable }
    ensures { (a : Lists) → IsUndefined (action_of pools.now a _action.now) result stack.now stack.now }
{
    unreachable(stack)
}
