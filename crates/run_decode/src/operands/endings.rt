//! The ends of blocks as actions (LangRef, "Terminator Instructions").
ghost use Rattle.std.specs.Prelude.{IfOk, OnOk};
ghost use Rattle.module_arena.specs.declared.instruction.Ending.TheVariants as ending;
ghost use Rattle.run_decode.specs.Scopes.Scopes.{HasBlock, HasOperand};
ghost use Rattle.run_decode.specs.Scopes.Ways.{AllPhisSuit};
ghost use Rattle.run_decode.specs.Flat.Grown.{Adds};
ghost use Rattle.run_decode.specs.Operands.Endings.{EndMeant};
ghost use Rattle.run_decode.specs.Operands.Suits.{EndSuits, HasBranch, HasSwitch};

use crate::flat::{Action, NOTHING, Pools};
use crate::operands::cases::put_cases;
use crate::operands::operands::{put_operand, put_scalar};
use crate::operands::ways::put_edge;
use crate::scopes::FunctionScope;
use module_arena::{BlockId, Case, Ending, Operand};
use std::alloc::AllocError;

/// `ret` of a value.
fn put_return(
    scope: &FunctionScope<'_, '_>,
    pools: &mut Pools,
    from: BlockId,
    operand: Operand,
) -> Result<Action, AllocError>
    requires { HasOperand scope.now operand }
    ensures grows { OnOk result (Adds pools.old pools.new) }
    ensures action { IfOk result (EndMeant scope.now pools.new from (ending.Return operand)) }
{
    let value = put_operand(scope, pools, operand)?;
    Ok(Action::Return { value })
}

/// `br` to one block.
fn put_jump(
    scope: &FunctionScope<'_, '_>,
    pools: &mut Pools,
    from: BlockId,
    to: BlockId,
) -> Result<Action, AllocError>
    requires from { HasBlock scope.now from }
    requires to { HasBlock scope.now to }
    requires suits { AllPhisSuit scope.now }
    ensures grows { OnOk result (Adds pools.old pools.new) }
    ensures action { IfOk result (EndMeant scope.now pools.new from (ending.Jump to)) }
{
    let edge = put_edge(scope, pools, from, to)?;
    Ok(Action::Jump { edge })
}

/// `br` on a condition.
fn put_branch(
    scope: &FunctionScope<'_, '_>,
    pools: &mut Pools,
    from: BlockId,
    condition: Operand,
    targets: (BlockId, BlockId),
) -> Result<Action, AllocError>
    requires from { HasBlock scope.now from }
    requires branch { HasBranch scope.now condition targets.0 targets.1 }
    requires suits { AllPhisSuit scope.now }
    ensures grows { OnOk result (Adds pools.old pools.new) }
    ensures action { IfOk result (EndMeant scope.now pools.new from (ending.Branch condition targets.0 targets.1)) }
{
    let condition = put_scalar(scope, pools, condition)?;
    let then_edge = put_edge(scope, pools, from, targets.0)?;
    let else_edge = put_edge(scope, pools, from, targets.1)?;
    Ok(Action::Branch {
        condition,
        then_edge,
        else_edge,
    })
}

/// `switch`
fn put_switch(
    scope: &FunctionScope<'_, '_>,
    pools: &mut Pools,
    from: BlockId,
    operand: Operand,
    otherwise: BlockId,
    cases: &[Case],
) -> Result<Action, AllocError>
    requires from { HasBlock scope.now from }
    requires switch { HasSwitch scope.now operand otherwise cases.now }
    requires suits { AllPhisSuit scope.now }
    ensures grows { OnOk result (Adds pools.old pools.new) }
    ensures action { IfOk result (EndMeant scope.now pools.new from (ending.Switch operand otherwise cases.now)) }
{
    let value = put_scalar(scope, pools, operand)?;
    let otherwise = put_edge(scope, pools, from, otherwise)?;
    let cases = put_cases(scope, pools, from, cases)?;
    Ok(Action::Switch {
        value,
        otherwise,
        cases,
    })
}

/// The action of the end of a block, with what it points to in the pools. It is refused for want of memory alone; then what
/// the pools have is not told.
pub fn put_ending(
    scope: &FunctionScope<'_, '_>,
    pools: &mut Pools,
    from: BlockId,
    end: &Ending,
) -> Result<Action, AllocError>
    requires from { HasBlock scope.now from }
    requires end { EndSuits scope.now end.now }
    requires suits { AllPhisSuit scope.now }
    ensures grows { OnOk result (Adds pools.old pools.new) }
    ensures action { IfOk result (EndMeant scope.now pools.new from end.now) }
{
    match end {
        Ending::ReturnVoid => Ok(Action::Return { value: NOTHING }),
        Ending::Return(operand) => put_return(scope, pools, from, *operand),
        Ending::Jump(to) => put_jump(scope, pools, from, *to),
        Ending::Branch {
            condition,
            then_to,
            else_to,
        } => put_branch(scope, pools, from, *condition, (*then_to, *else_to)),
        Ending::Switch {
            value,
            otherwise,
            cases,
        } => put_switch(scope, pools, from, *value, *otherwise, cases.as_slice()),
        Ending::Unreachable => Ok(Action::Unreachable),
    }
}
