//! Whether the first block of a function has no predecessors: rule 8.
ghost use Rattle.std.specs.Prelude.{◌≡◌, ◌<◌, ◌==◌, not, [], ◌∷◌, All, length};
ghost use Rattle.std.specs.List.{list_any};
ghost use Rattle.module_arena.specs.Changes.{function_in};
ghost use Rattle.module_arena.specs.Functions.{blocks};
ghost use Rattle.module_arena.specs.Lists.{Lists, function_blocks};
ghost use Rattle.module_arena.specs.Mentions.{targets_of};
ghost use Rattle.module_arena.specs.Valid.{BlockOf, entry_demands, ask};
ghost use Rattle.module_arena.specs.View.{local_view};
ghost use Rattle.path_rows.specs.Numbers.{graph_of, names_of};
ghost use Rattle.path_rows.specs.Reflects.{Reflects};
ghost use Rattle.entry_verify.specs.Types.Judged.{Judged};
ghost use Rattle.instruction_verify.specs.Uses.Uses.{flow_in};

use entry_verify::types::VerifyFault;
use ir_base::Name;
use module_arena::{Block, BlockId, Case, Ending, Entity, Function, LocalName, copied_name};
use std::alloc::Global;

/// Whether a case goes to the first block.
fn has_case_to_first(cases: &[Case]) -> bool
    ensures { result ≡ list_any (λ c. c.target == 0) cases.now }
{
    for case in cases {
        if case.target.number() == 0 {
            return true;
        }
    }
    false
}

/// Whether the end of a block goes to the first block.
fn goes_to_first(ending: &Ending) -> bool
    ensures { result ≡ list_any (λ t. t == 0) (targets_of ending.now) }
{
    match ending {
        Ending::Jump(target) => target.number() == 0,
        Ending::Branch {
            then_to,
            else_to,
            ..
        } => { (then_to.number() == 0) | (else_to.number() == 0) }
        Ending::Switch {
            otherwise,
            cases,
            ..
        } => {
            let by_case = has_case_to_first(cases.as_slice());
            (otherwise.number() == 0) | by_case
        }
        Ending::ReturnVoid | Ending::Return(_) | Ending::Unreachable => false,
    }
}

/// Whether one of these blocks goes to the first.
fn go_to_first(blocks: &[Block]) -> bool
    ensures { result ≡ list_any (λ b. list_any (λ t. t == 0) (targets_of b.end)) blocks.now }
{
    for block in blocks {
        if goes_to_first(&block.end) {
            return true;
        }
    }
    false
}

/// Whether a block of the function goes to the first.
fn is_first_entered(function: &Function) -> bool
    ensures { result ≡ list_any (λ b. list_any (λ t. t == 0) (targets_of b.end)) (function_blocks function.now) }
{
    match &function.body {
        Some(body) => go_to_first(body.blocks.as_slice()),
        None => false,
    }
}

/// A fault of rule 8 at a block, where it is entered.
fn judge_block(
    alloc: Global,
    function: &Name,
    block: &LocalName,
    entered: bool,
) -> Result<(), VerifyFault>
    ensures { Judged (ask (BlockOf (local_view block.now) function.now) 8 (not entered) ∷ []) result }
{
    if entered {
        let block = copied_name(alloc, block)?;
        let function = function.copy(alloc)?;
        return Err(VerifyFault::Invalid {
            rule: 8,
            entity: Entity::Block(block, function),
        });
    }
    Ok(())
}

/// What the first block of a function is asked: a fault of rule 8 at it, where a block leads to it.
pub fn judge_entry_block(alloc: Global, function: &Function) -> Result<(), VerifyFault>
    requires { All (λ b. All (λ t. t < length (function_blocks function.now)) (targets_of b.end)) (function_blocks function.now) }
    ensures { (a : Lists) → Reflects (flow_in a function.now) (names_of function.now) (graph_of function.now)
        → Judged (entry_demands (function_in a function.now) (blocks (function_in a function.now))) result }
{
    if function.block_count() == 0 {
        return Ok(());
    }
    let first = function.block(BlockId::new(0));
    let entered = is_first_entered(function);
    judge_block(alloc, &function.name, &first.name, entered)
}
