//! The bodies of functions as actions.
ghost use Rattle.std.specs.Prelude.{◌≡◌, ℕ, All, IfOk, OnOk, Some, map, slice_get};
ghost use Rattle.module_arena.specs.declared.entry.Block as the_block;
ghost use Rattle.module_arena.specs.Lists.{function_blocks};
ghost use Rattle.module_arena.specs.View.{module_of};
ghost use Rattle.run_names.specs.declared.callee.CalleeRef.TheVariants as callees;
ghost use Rattle.run_names.specs.Told.{HasCode, alone};
ghost use Rattle.run_rules.specs.Look.{look};
ghost use Rattle.run_decode.specs.Flat.Flat.{IsWithin};
ghost use Rattle.run_decode.specs.Flat.Grown.{Grows};
ghost use Rattle.run_decode.specs.Flat.Spans.{IsLonger};
ghost use Rattle.run_decode.specs.Body.Bodies.{AreNarrow, look_of};
ghost use Rattle.run_decode.specs.Signatures.Numbers.{AreNumbered, Numbers};
ghost use Rattle.run_decode.specs.Scopes.Scopes.{HasBlock};
ghost use Rattle.run_decode.specs.Operands.Suits.{AllSuit, Suits};
ghost use Rattle.run_decode.specs.Operations.{action_from};
ghost use Rattle.run_decode.specs.Rows.{AddsActions, AreRows, IsRow};

use crate::body::ActionBody;
use crate::flat::{Action, Pool, Pools, Span, numbered};
use crate::instructions::put_instruction;
use crate::operands::put_ending;
use crate::scopes::FunctionScope;
use crate::signatures::Signatures;
use crate::suits::functions_of_a_checked_module_suit;
use module_arena::{BlockId, FunctionId, Inst};
use run_names::Names;
use std::alloc::{AllocError, Global};

/// Puts the actions of instructions behind those that are there, in order.
fn put_actions(
    scope: &FunctionScope<'_, '_>,
    pools: &mut Pools,
    signatures: &mut Signatures<'_>,
    actions: &mut Pool<Action>,
    instructions: &[Inst],
) -> Result<(), AllocError>
    requires lists { signatures.old.lists ≡ scope.now.lists }
    requires numbered { AreNumbered signatures.old scope.now.lists pools.old }
    requires suits { All (Suits scope.now) instructions.now }
    ensures grows { OnOk result (Grows pools.old pools.new) }
    ensures numbers { Numbers signatures.old signatures.new }
    ensures numbered { OnOk result (AreNumbered signatures.new scope.now.lists pools.new) }
    ensures actions { OnOk result (AddsActions scope.now pools.new actions.old actions.new (map (action_from scope.now) instructions.now)) }
{
    'instructions: for instruction in instructions {
        let action = put_instruction(scope, pools, signatures, instruction)?;
        actions.push(action)?;
    }
    Ok(())
}

/// Puts the actions of a block behind those that are there, and gives where they stand.
fn put_block(
    scope: &FunctionScope<'_, '_>,
    pools: &mut Pools,
    signatures: &mut Signatures<'_>,
    actions: &mut Pool<Action>,
    id: BlockId,
) -> Result<Span, AllocError>
    requires lists { signatures.old.lists ≡ scope.now.lists }
    requires numbered { AreNumbered signatures.old scope.now.lists pools.old }
    requires within { All (IsWithin pools.old) actions.old }
    requires id { HasBlock scope.now id }
    requires suits { AllSuit scope.now }
    ensures grows { OnOk result (Grows pools.old pools.new) }
    ensures kept { OnOk result (IsLonger actions.old actions.new) }
    ensures numbers { Numbers signatures.old signatures.new }
    ensures numbered { OnOk result (AreNumbered signatures.new scope.now.lists pools.new) }
    ensures within { OnOk result (All (IsWithin pools.new) actions.new) }
    ensures row { (b : the_block.Block) → slice_get (function_blocks scope.now.function) id ≡ Some b → IfOk result (λ row. IsRow scope.now pools.new actions.new row b) }
{
    let first = actions.len();
    let block = scope.block(id);
    put_actions(
        scope,
        pools,
        signatures,
        actions,
        block.instructions.as_slice(),
    )?;
    let end = put_ending(scope, pools, id, &block.end)?;
    actions.push(end)?;
    actions.since(first)
}

/// Puts the actions of all blocks behind those that are there, in order, and gives where those of each block stand.
fn put_blocks(
    scope: &FunctionScope<'_, '_>,
    pools: &mut Pools,
    signatures: &mut Signatures<'_>,
    actions: &mut Pool<Action>,
) -> Result<Pool<Span>, AllocError>
    requires lists { signatures.old.lists ≡ scope.now.lists }
    requires numbered { AreNumbered signatures.old scope.now.lists pools.old }
    requires within { All (IsWithin pools.old) actions.old }
    requires suits { AllSuit scope.now }
    ensures numbers { Numbers signatures.old signatures.new }
    ensures numbered { OnOk result (AreNumbered signatures.new scope.now.lists pools.new) }
    ensures rows { IfOk result (AreRows scope.now pools.new actions.new) }
{
    let count = numbered(scope.block_count() as usize)?;
    let mut rows = Pool::new(scope.alloc());
    'placed: for number in 0..count {
        let row = put_block(scope, pools, signatures, actions, BlockId::new(number))?;
        rows.push(row)?;
    }
    Ok(rows)
}

/// The body of a function of a module that has one which counts, as actions. The function types of its calls get numbers among those that
/// the run has met. It is refused for want of memory, or of places that 32 bits can count.
pub fn decode<'m>(
    alloc: Global,
    names: &Names<'m>,
    signatures: &mut Signatures<'m>,
    id: FunctionId,
) -> Result<ActionBody<'m>, AllocError>
    requires code { HasCode names.now (callees.Code id) }
    requires lists { signatures.old.lists ≡ names.now }
    ensures lists { IfOk result (λ body. body.lists ≡ names.now) }
    ensures look { IfOk result (λ body. (block position : ℕ) → look_of body block position ≡ look (alone (module_of names.now)) id block position) }
    ensures narrow { IfOk result (λ body. AreNarrow body.pools body.widest) }
    ensures numbered { IfOk result (λ body. AreNumbered signatures.new names.now body.pools) }
    ensures numbers { Numbers signatures.old signatures.new }
{
    let program = names.program();
    // A checked module is well formed and valid, and so each of its functions suits.
    let arena = program.arena();
    let _count = arena.variable_count();
    functions_of_a_checked_module_suit();
    let scope = FunctionScope::new(alloc, names, id)?;
    let mut pools = Pools::new(alloc);
    let mut actions = Pool::new(alloc);
    let rows = put_blocks(&scope, &mut pools, signatures, &mut actions)?;
    Ok(ActionBody::new(program, pools, actions, rows))
}
