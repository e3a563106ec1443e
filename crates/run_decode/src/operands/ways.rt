//! Ways into blocks in the pools of a body.
ghost use Rattle.std.specs.Prelude.{◌≡◌, IfOk, OnOk};
ghost use Rattle.run_actions.specs.Edges.{way_of};
ghost use Rattle.run_rules.specs.Resolve.{edge_in};
ghost use Rattle.run_decode.specs.Scopes.Scopes.{HasBlock, label_of, scope_in};
ghost use Rattle.run_decode.specs.Scopes.Ways.{AllPhisSuit};
ghost use Rattle.run_decode.specs.Flat.Flat.{HasItsMoves};
ghost use Rattle.run_decode.specs.Flat.Grown.{Adds, IsEdge};

use crate::flat::Pools;
use crate::scopes::{FunctionScope, push_way};
use module_arena::BlockId;
use run_actions::Edge;
use std::alloc::AllocError;

/// The way from a block into another, with its moves among the moves. It is refused for want of memory alone.
pub(crate) fn put_way(
    scope: &FunctionScope<'_, '_>,
    pools: &mut Pools,
    from: BlockId,
    to: BlockId,
) -> Result<Edge, AllocError>
    requires from { HasBlock scope.now from }
    requires to { HasBlock scope.now to }
    requires suits { AllPhisSuit scope.now }
    ensures grows { OnOk result (Adds pools.old pools.new) }
    ensures moves { IfOk result (HasItsMoves pools.new) }
    ensures way { IfOk result (λ way. way_of pools.new.moves way ≡ edge_in (scope_in scope.now.lists scope.now.function) (label_of scope.now.lists scope.now.function from) (label_of scope.now.lists scope.now.function to)) }
{
    let mut moves = Vec::new(scope.alloc());
    let position = push_way(scope, from, to, &mut moves)?;
    let span = pools.moves.append(&moves)?;
    Ok(Edge {
        block: to.number(),
        position,
        first: span.first,
        end: span.first + span.count,
    })
}

/// Puts the way from a block into another among the edges. It is refused for want of memory alone.
pub fn put_edge(
    scope: &FunctionScope<'_, '_>,
    pools: &mut Pools,
    from: BlockId,
    to: BlockId,
) -> Result<u32, AllocError>
    requires from { HasBlock scope.now from }
    requires to { HasBlock scope.now to }
    requires suits { AllPhisSuit scope.now }
    ensures grows { OnOk result (Adds pools.old pools.new) }
    ensures edge { IfOk result (λ place. IsEdge pools.new place (edge_in (scope_in scope.now.lists scope.now.function) (label_of scope.now.lists scope.now.function from) (label_of scope.now.lists scope.now.function to))) }
{
    let way = put_way(scope, pools, from, to)?;
    pools.edges.push(way)
}
