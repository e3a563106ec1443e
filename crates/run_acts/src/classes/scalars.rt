//! Instructions whose result is one leaf.
ghost use Rattle.std.specs.Prelude.{◌≡◌, ℕ};
ghost use Rattle.ir_eval.specs.Operators.{is_division};
ghost use Rattle.module_arena.specs.Lists.{Lists};
ghost use Rattle.run_actions.specs.Carried.{Acts, IsCarriedOut};
ghost use Rattle.run_decode.specs.declared.flat.action.Action.TheVariants as flat;
ghost use Rattle.run_decode.specs.Flat.Flat.{action_of};
ghost use Rattle.run_acts.specs.Classes.May.{MayAct};

use crate::classes::operand::{origin, told};
use ir_tables::{Flags, Opcode, Predicate, UndefinedKind};
use run_actions::stack::Stack;
use run_actions::{compare, compute, convert};
use run_decode::flat::{Action, LeafAt, Pools};

/// Whether a binary instruction divides.
#[inline]
fn divides(opcode: Opcode) -> bool
    ensures { result ≡ is_division opcode }
{
    matches!(
        opcode,
        Opcode::UDiv | Opcode::SDiv | Opcode::URem | Opcode::SRem
    )
}

/// A binary instruction, whose operands are told first. The action serves the clauses.
#[inline(always)]
fn compute_told(
    stack: &mut Stack,
    pools: &Pools,
    _action: &Action,
    to: u32,
    opcode: Opcode,
    flags: Flags,
    width: u8,
    left: LeafAt,
    right: LeafAt,
) -> Result<(), UndefinedKind>
    requires is { _action.now ≡ flat.Compute to opcode flags width left right }
    requires may { (count : ℕ) × MayAct count pools.now _action.now stack.old }
    ensures { (a : Lists) → Acts (action_of pools.now a _action.now) result stack.old stack.new }
{
    let first = told(stack, pools, left);
    let second = told(stack, pools, right);
    compute(stack, to, opcode, flags, width, &first, &second)
}

/// A division or a remainder. It stands apart, so that no other instruction makes room for what may be refused.
#[inline(never)]
fn act_on_division(
    stack: &mut Stack,
    pools: &Pools,
    _action: &Action,
    to: u32,
    opcode: Opcode,
    flags: Flags,
    width: u8,
    left: LeafAt,
    right: LeafAt,
) -> Result<(), UndefinedKind>
    requires is { _action.now ≡ flat.Compute to opcode flags width left right }
    requires may { (count : ℕ) × MayAct count pools.now _action.now stack.old }
    ensures { (a : Lists) → Acts (action_of pools.now a _action.now) result stack.old stack.new }
{
    compute_told(stack, pools, _action, to, opcode, flags, width, left, right)
}

/// A binary instruction. The action serves the clauses.
///
/// Refused where the instruction is undefined.
#[inline(always)]
pub fn act_on_binary(
    stack: &mut Stack,
    pools: &Pools,
    _action: &Action,
    to: u32,
    opcode: Opcode,
    flags: Flags,
    width: u8,
    left: LeafAt,
    right: LeafAt,
) -> Result<(), UndefinedKind>
    requires is { _action.now ≡ flat.Compute to opcode flags width left right }
    requires may { (count : ℕ) × MayAct count pools.now _action.now stack.old }
    ensures { (a : Lists) → Acts (action_of pools.now a _action.now) result stack.old stack.new }
{
    if divides(opcode) {
        act_on_division(stack, pools, _action, to, opcode, flags, width, left, right)?;
        return Ok(());
    }
    compute_told(stack, pools, _action, to, opcode, flags, width, left, right)
}

/// A comparison. The action serves the clauses.
#[inline(always)]
pub fn act_on_comparison(
    stack: &mut Stack,
    pools: &Pools,
    _action: &Action,
    to: u32,
    predicate: Predicate,
    samesign: bool,
    width: u8,
    left: LeafAt,
    right: LeafAt,
)
    requires is { _action.now ≡ flat.Compare to predicate samesign width left right }
    requires may { (count : ℕ) × MayAct count pools.now _action.now stack.old }
    ensures { (a : Lists) → IsCarriedOut (action_of pools.now a _action.now) stack.old stack.new }
{
    let first = told(stack, pools, left);
    let second = told(stack, pools, right);
    compare(stack, to, predicate, samesign, width, &first, &second);
}

/// A cast. The action serves the clauses.
#[inline(always)]
pub fn act_on_cast(
    stack: &mut Stack,
    pools: &Pools,
    _action: &Action,
    to: u32,
    opcode: Opcode,
    flags: Flags,
    from_width: u8,
    to_width: u8,
    value: LeafAt,
)
    requires is { _action.now ≡ flat.Convert to opcode flags from_width to_width value }
    requires may { (count : ℕ) × MayAct count pools.now _action.now stack.old }
    ensures { (a : Lists) → IsCarriedOut (action_of pools.now a _action.now) stack.old stack.new }
{
    let operand = origin(pools, value);
    convert(stack, to, opcode, flags, from_width, to_width, &operand);
}
