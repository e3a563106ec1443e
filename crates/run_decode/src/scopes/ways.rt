//! Ways into blocks, and what phis get on them (LangRef, "phi Instruction").
ghost use Rattle.std.specs.Prelude.{◌≡◌, ◌+◌, ◌<◌, All, IfOk, IfSome, OnOk, Some, flat_map, length, map};
ghost use Rattle.module_arena.specs.Lists.{value_names};
ghost use Rattle.type_table.specs.Types.{tree};
ghost use Rattle.run_rules.specs.Resolve.{edge_in, incoming_from, moves_to, phis};
ghost use Rattle.run_rules.specs.Scope.{value_in};
ghost use Rattle.run_actions.specs.Stack.Origins.{origin_of};
ghost use Rattle.run_decode.specs.Scopes.Scopes.{AreApart, HasBlock, HasValueAt, incoming_of, instruction_of, label_of, labels_in, scope_in, to_of, value_of};
ghost use Rattle.run_decode.specs.Scopes.Ways.{AllPhisSuit, GainsMoves, HasPhi, PhiSuits, entry_from, gets};

use crate::scopes::leaves::push_value;
use crate::scopes::scope::FunctionScope;
use module_arena::{BlockId, Incoming, Inst, Value, ValueId};
use run_actions::stack::{Move, Origin};
use std::alloc::AllocError;
use type_table::TypeId;

/// The value of the first entry that is for a block.
fn entry_from(incoming: &[Incoming], from: BlockId) -> Option<Value>
    ensures { result ≡ entry_from incoming.now from }
{
    'entries: for entry in incoming {
        if entry.block.number() == from.number() {
            return Some(entry.value);
        }
    }
    None
}

/// One more. What 32 bits cannot count there is no room for.
fn next_of(count: u32) -> Result<u32, AllocError>
    ensures { IfOk result (λ next. next ≡ count + 1) }
{
    match count.checked_add(1) {
        Some(next) => Ok(next),
        None => Err(AllocError),
    }
}

/// Appends moves of leaves to one place of the frame after another.
fn push_moves(into: &mut Vec<Move>, to: u32, leaves: &[Origin]) -> Result<(), AllocError>
    ensures { OnOk result (GainsMoves into.old.items into.new.items (moves_to to (map origin_of leaves.now))) }
{
    let mut next = to;
    'leaves: for leaf in leaves {
        into.push(Move {
            to: next,
            from: *leaf,
        })?;
        next = next_of(next)?;
    }
    Ok(())
}

/// Appends moves of the leaves of a value to those of a phi of that type.
fn push_entry(
    scope: &FunctionScope<'_, '_>,
    phi: ValueId,
    ty: TypeId,
    value: Value,
    into: &mut Vec<Move>,
) -> Result<(), AllocError>
    requires phi { phi < length (value_names scope.now.function) }
    requires value { HasValueAt scope.now ty value }
    ensures { OnOk result (GainsMoves into.old.items into.new.items
        (moves_to (to_of scope.now (Some phi)) (value_in (scope_in scope.now.lists scope.now.function) (tree scope.now.lists.table ty) (value_of scope.now.lists scope.now.function value)))) }
{
    let mut leaves = Vec::new(scope.alloc());
    push_value(scope, ty, value, &mut leaves)?;
    push_moves(into, scope.to(Some(phi)), &leaves)
}

/// Appends what the leaves of a phi of that type get from a block.
fn push_phi(
    scope: &FunctionScope<'_, '_>,
    from: BlockId,
    phi: (ValueId, TypeId),
    incoming: &[Incoming],
    into: &mut Vec<Move>,
) -> Result<(), AllocError>
    requires apart { AreApart (labels_in scope.now.lists scope.now.function) }
    requires from { HasBlock scope.now from }
    requires phi { HasPhi scope.now phi.0 phi.1 incoming.now }
    ensures { OnOk result (GainsMoves into.old.items into.new.items
        (moves_to (to_of scope.now (Some phi.0)) (incoming_from (scope_in scope.now.lists scope.now.function) (label_of scope.now.lists scope.now.function from) (tree scope.now.lists.table phi.1)
        (map (incoming_of scope.now.lists scope.now.function) incoming.now)))) }
{
    match entry_from(incoming, from) {
        Some(value) => push_entry(scope, phi.0, phi.1, value, into),
        None => Ok(()),
    }
}

/// Appends what the phis at the front of a block get from another, and gives how many phis these are.
fn push_phis(
    scope: &FunctionScope<'_, '_>,
    from: BlockId,
    instructions: &[Inst],
    into: &mut Vec<Move>,
) -> Result<u32, AllocError>
    requires apart { AreApart (labels_in scope.now.lists scope.now.function) }
    requires from { HasBlock scope.now from }
    requires phis { All (PhiSuits scope.now) instructions.now }
    ensures count { IfOk result (λ count. count ≡ length (phis (map (instruction_of scope.now.lists scope.now.function) instructions.now))) }
    ensures moves { OnOk result (GainsMoves into.old.items into.new.items (gets scope.now from (phis (map (instruction_of scope.now.lists scope.now.function) instructions.now)))) }
{
    let mut count = 0;
    'phis: for instruction in instructions {
        let Inst::Phi(phi, ty, incoming) = instruction else {
            return Ok(count);
        };
        push_phi(scope, from, (*phi, *ty), incoming.as_slice(), into)?;
        count = next_of(count)?;
    }
    Ok(count)
}

/// Appends the moves of the way from a block into another, and gives the place behind the other's phis. It is refused for want of memory
/// alone, and may then have appended some.
pub fn push_way(
    scope: &FunctionScope<'_, '_>,
    from: BlockId,
    to: BlockId,
    into: &mut Vec<Move>,
) -> Result<u32, AllocError>
    requires from { HasBlock scope.now from }
    requires to { HasBlock scope.now to }
    requires suits { AllPhisSuit scope.now }
    ensures block { (edge_in (scope_in scope.now.lists scope.now.function) (label_of scope.now.lists scope.now.function from) (label_of scope.now.lists scope.now.function to)).block ≡ to }
    ensures position { IfOk result (λ position. position ≡ (edge_in (scope_in scope.now.lists scope.now.function) (label_of scope.now.lists scope.now.function from) (label_of scope.now.lists scope.now.function to)).position) }
    ensures moves { OnOk result (GainsMoves into.old.items into.new.items (edge_in (scope_in scope.now.lists scope.now.function) (label_of scope.now.lists scope.now.function from) (label_of scope.now.lists scope.now.function to)).moves) }
{
    let block = scope.block(to);
    push_phis(scope, from, block.instructions.as_slice(), into)
}
