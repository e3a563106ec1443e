//! Instructions that go to a block, or nowhere.
ghost use Rattle.std.specs.Prelude.{◌≡◌, All, map};
ghost use Rattle.ir_eval.specs.Value.{IsInteger};
ghost use Rattle.run_rules.specs.Action.{Branch, Jump, Switch, Unreachable};
ghost use Rattle.run_rules.specs.Frame.{followed};
ghost use Rattle.run_actions.specs.Stack.Origins.{origin_of};
ghost use Rattle.run_actions.specs.Stack.UnderWay.{changed, IsRunning};
ghost use Rattle.run_actions.specs.Carried.{Acts, IsCarriedOut, IsUndefined};
ghost use Rattle.run_actions.specs.Edges.{case_way, chosen_of, IsWay, way_of};
ghost use Rattle.run_actions.specs.Operands.{IsThere};

use crate::edge::{Edge, SwitchWay};
use crate::stack::{Move, Origin, Stack};
use ir_eval::Scalar;
use ir_tables::UndefinedKind;

// The newest frame goes that way.
#[inline]
fn go(stack: &mut Stack, edge: &Edge, pool: &[Move])
    requires running { IsRunning stack.old.frames }
    requires way { IsWay stack.old pool.now edge.now }
    ensures { stack.new ≡ changed (followed (way_of pool.now edge.now)) stack.old }
{
    let moves = &pool[edge.first as usize..edge.end as usize];
    stack.follow(edge.block, edge.position, moves);
}

/// A way to one block (LangRef, "br Instruction").
#[inline]
pub fn jump(stack: &mut Stack, edge: &Edge, pool: &[Move])
    requires running { IsRunning stack.old.frames }
    requires way { IsWay stack.old pool.now edge.now }
    ensures { IsCarriedOut (Jump (way_of pool.now edge.now)) stack.old stack.new }
{
    go(stack, edge, pool);
}

/// A way to one of two blocks: the second where the condition is 0 (LangRef, "br Instruction").
///
/// Refused where the condition is poison, or no integer: that is undefined.
#[inline]
pub fn branch(
    stack: &mut Stack,
    condition: &Origin,
    then_edge: &Edge,
    else_edge: &Edge,
    pool: &[Move],
) -> Result<(), UndefinedKind>
    requires running { IsRunning stack.old.frames }
    requires there { IsThere stack.old condition.now }
    requires then_way { IsWay stack.old pool.now then_edge.now }
    requires else_way { IsWay stack.old pool.now else_edge.now }
    ensures { Acts (Branch (origin_of condition.now) (way_of pool.now then_edge.now) (way_of pool.now else_edge.now)) result stack.old stack.new }
{
    let Scalar::Int(number) = stack.read(condition) else {
        return Err(UndefinedKind::BranchOnPoison);
    };
    let edge = if number == 0 { else_edge } else { then_edge };
    go(stack, edge, pool);
    Ok(())
}

// The way of the first case with that number, or else the other.
fn chosen<'a>(number: u128, otherwise: &'a Edge, cases: &'a [SwitchWay]) -> &'a Edge
    ensures { result.now ≡ chosen_of number otherwise.now cases.now }
{
    'looking: for case in cases {
        if case.number == number {
            return &case.edge;
        }
    }
    otherwise
}

/// A way to the block of the first case with the number, or else to the other (LangRef, "switch Instruction").
///
/// Refused where the value is poison, or no integer: that is undefined.
#[inline(never)]
pub fn switch(
    stack: &mut Stack,
    value: &Origin,
    otherwise: &Edge,
    cases: &[SwitchWay],
    pool: &[Move],
) -> Result<(), UndefinedKind>
    requires running { IsRunning stack.old.frames }
    requires there { IsThere stack.old value.now }
    requires other_way { IsWay stack.old pool.now otherwise.now }
    requires case_ways { All (λ c. IsWay stack.old pool.now c.edge) cases.now }
    ensures { Acts (Switch (origin_of value.now) (way_of pool.now otherwise.now) (map (case_way pool.now) cases.now)) result stack.old stack.new }
{
    let Scalar::Int(number) = stack.read(value) else {
        return Err(UndefinedKind::BranchOnPoison);
    };
    go(stack, chosen(number, otherwise, cases), pool);
    Ok(())
}

/// Coming to an instruction that is not to be come to is undefined (LangRef, "unreachable Instruction").
#[inline]
pub fn unreachable(stack: &Stack) -> UndefinedKind
    ensures { IsUndefined Unreachable result stack.now stack.now }
{
    UndefinedKind::Unreachable
}
