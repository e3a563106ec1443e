//! The terms of `getelementptr` in the pools of a body (LangRef, "getelementptr Instruction").
ghost use Rattle.std.specs.Prelude.{◌≡◌, ◌<◌, ◌≤◌, All, IfOk, OnOk, length, map, true};
ghost use Rattle.module_arena.specs.TypeTests.{lies_in_memory};
ghost use Rattle.type_table.specs.Types.{structs, tree};
ghost use Rattle.type_table.specs.declared.measure.TheConstants.{SIZE_LIMIT};
ghost use Rattle.run_rules.specs.Displace.{terms_of};
ghost use Rattle.run_rules.specs.Resolve.{index_in};
ghost use Rattle.run_names.specs.Shapes.Shapes.{shape_in};
ghost use Rattle.run_actions.specs.Stack.Origins.{origin_of};
ghost use Rattle.run_decode.specs.Scopes.Scopes.{HasScalar, operand_of, scope_in};
ghost use Rattle.run_decode.specs.Flat.Grown.{Adds, AreTerms, IsLeaf};
ghost use Rattle.run_decode.specs.Operands.Open.{AreOpen, IsOpen};

use crate::flat::{LeafAt, Pools, Span, TERMS, Term};
use crate::operands::counted::{is_counted, lead_of_all};
use crate::operands::pooled::put_known;
use crate::operands::steps::{Step, push_steps};
use crate::scopes::FunctionScope;
use module_arena::Operand;
use run_actions::stack::Origin;
use std::alloc::{AllocError, Global};
use type_table::TypeId;

/// Puts an index there where it is had from.
fn put_index(pools: &mut Pools, index: Origin) -> Result<LeafAt, AllocError>
    ensures grows { OnOk result (Adds pools.old pools.new) }
    ensures leaf { IfOk result (λ at. IsLeaf pools.new at (origin_of index)) }
{
    match index {
        Origin::Held(place) => Ok(LeafAt::Held(place)),
        Origin::Known(leaf) => put_known(pools, leaf),
    }
}

/// A term, with its index among the leaves. It is gathered where that is known: then the sum has it.
fn put_term(pools: &mut Pools, step: Step) -> Result<Term, AllocError>
    requires { step.size ≤ SIZE_LIMIT }
    ensures grows { OnOk result (Adds pools.old pools.new) }
    ensures term { IfOk result (IsOpen pools.new step) }
{
    let index = put_index(pools, step.index)?;
    Ok(Term {
        index,
        width: step.width,
        size: step.size,
        gathered: is_counted(step.index, step.width),
    })
}

/// Terms, with their indices among the leaves.
fn put_terms(alloc: Global, pools: &mut Pools, steps: &[Step]) -> Result<Vec<Term>, AllocError>
    requires { All (λ s. s.size ≤ SIZE_LIMIT) steps.now }
    ensures grows { OnOk result (Adds pools.old pools.new) }
    ensures terms { IfOk result (λ terms. AreOpen pools.new steps.now terms.items) }
{
    let mut terms = Vec::new(alloc);
    'steps: for step in steps {
        let term = put_term(pools, *step)?;
        terms.push(term)?;
    }
    Ok(terms)
}

/// Puts the terms of a `getelementptr` among the terms, and the sum of those that are gathered among the sums. It is refused for want of
/// memory, or of room for so many terms.
pub fn put_steps(
    scope: &FunctionScope<'_, '_>,
    pools: &mut Pools,
    source: TypeId,
    indices: &[Operand],
) -> Result<(Span, u32), AllocError>
    requires known { source < length scope.now.lists.table.types }
    requires laid { lies_in_memory (structs scope.now.lists.table) (tree scope.now.lists.table source) ≡ true }
    requires indices { All (HasScalar scope.now) indices.now }
    ensures grows { OnOk result (Adds pools.old pools.new) }
    ensures terms { IfOk result (λ at. AreTerms pools.new at.0 at.1 (terms_of (shape_in scope.now.lists.table source) (map (λ o. index_in (scope_in scope.now.lists scope.now.function) (operand_of scope.now.lists scope.now.function o)) indices.now))) }
{
    let mut steps = Vec::new(scope.alloc());
    push_steps(scope, source, indices, &mut steps)?;
    if steps.len() > TERMS {
        return Err(AllocError);
    }
    let terms = put_terms(scope.alloc(), pools, &steps)?;
    let span = pools.terms.append(&terms)?;
    let total = lead_of_all(&steps);
    let sum = pools.sums.push(total)?;
    Ok((span, sum))
}
