//! The cases of `switch` in the pools of a body (LangRef, "switch Instruction").
ghost use Rattle.std.specs.Prelude.{◌≡◌, All, IfOk, OnOk, map};
ghost use Rattle.run_actions.specs.Edges.{case_way};
ghost use Rattle.run_decode.specs.Scopes.Scopes.{HasBlock};
ghost use Rattle.run_decode.specs.Scopes.Ways.{AllPhisSuit};
ghost use Rattle.run_decode.specs.Flat.Flat.{HasItsMoves};
ghost use Rattle.run_decode.specs.Flat.Grown.{Adds, AreCases};
ghost use Rattle.run_decode.specs.Operands.Endings.{AreMeant, case_from};
ghost use Rattle.run_decode.specs.Operands.Suits.{HasCase};

use crate::flat::{Pools, Span};
use crate::operands::ways::put_way;
use crate::scopes::FunctionScope;
use module_arena::{BlockId, Case};
use run_actions as actions;
use run_initial::constants::{leaf_of, number_of};
use std::alloc::AllocError;

/// A case of a `switch` that ends a block: its number, and its way, with the moves among the moves.
fn put_case(
    scope: &FunctionScope<'_, '_>,
    pools: &mut Pools,
    from: BlockId,
    case: Case,
) -> Result<actions::SwitchWay, AllocError>
    requires from { HasBlock scope.now from }
    requires case { HasCase scope.now case }
    requires suits { AllPhisSuit scope.now }
    ensures grows { OnOk result (Adds pools.old pools.new) }
    ensures moves { IfOk result (λ c. HasItsMoves pools.new c.edge) }
    ensures case { IfOk result (λ c. case_way pools.new.moves c ≡ case_from scope.now from case) }
{
    let number = number_of(leaf_of(scope.names(), case.ty, case.value));
    let edge = put_way(scope, pools, from, case.target)?;
    Ok(actions::SwitchWay { number, edge })
}

/// The cases of a `switch` that ends a block, with the moves of their ways among the moves.
fn cases_of(
    scope: &FunctionScope<'_, '_>,
    pools: &mut Pools,
    from: BlockId,
    cases: &[Case],
) -> Result<Vec<actions::SwitchWay>, AllocError>
    requires from { HasBlock scope.now from }
    requires cases { All (HasCase scope.now) cases.now }
    requires suits { AllPhisSuit scope.now }
    ensures grows { OnOk result (Adds pools.old pools.new) }
    ensures cases { IfOk result (λ done. AreMeant pools.new done.items (map (case_from scope.now from) cases.now)) }
{
    let mut done = Vec::new(scope.alloc());
    'cases: for case in cases {
        let one = put_case(scope, pools, from, *case)?;
        done.push(one)?;
    }
    Ok(done)
}

/// Puts the cases of a `switch` that ends a block among the cases, in order. It is refused for want of memory alone; then what
/// the pools have is not told.
pub fn put_cases(
    scope: &FunctionScope<'_, '_>,
    pools: &mut Pools,
    from: BlockId,
    cases: &[Case],
) -> Result<Span, AllocError>
    requires from { HasBlock scope.now from }
    requires cases { All (HasCase scope.now) cases.now }
    requires suits { AllPhisSuit scope.now }
    ensures grows { OnOk result (Adds pools.old pools.new) }
    ensures cases { IfOk result (λ span. AreCases pools.new span (map (case_from scope.now from) cases.now)) }
{
    let done = cases_of(scope, pools, from, cases)?;
    pools.cases.append(&done)
}
