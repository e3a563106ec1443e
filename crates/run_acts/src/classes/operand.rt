//! Operands from the pools of a body.
ghost use Rattle.std.specs.Prelude.{◌≡◌, Some, length, slice_get};
ghost use Rattle.run_actions.specs.Edges.{way_of};
ghost use Rattle.run_decode.specs.Flat.Flat.{IsEdgeIn, IsLeafIn, edge_at, leaf_of};
ghost use Rattle.run_rules.specs.Frame.{read};
ghost use Rattle.run_actions.specs.Stack.Origins.{origin_of};
ghost use Rattle.run_actions.specs.Stack.UnderWay.{newest};
ghost use Rattle.run_actions.specs.declared.stack.origin.Origin.TheVariants.{Known};
ghost use Rattle.run_acts.specs.Classes.May.{HasPlace};

use run_actions::Edge;
use run_actions::stack::{Origin, Stack};
use run_decode::flat::{LeafAt, Pools};

/// Where a leaf is had from: its place in a frame, or the leaf itself out of the pools.
#[inline]
pub fn origin(pools: &Pools, leaf: LeafAt) -> Origin
    requires { IsLeafIn pools.now leaf }
    ensures { origin_of result ≡ leaf_of pools.now leaf }
{
    match leaf {
        LeafAt::Held(place) => Origin::Held(place),
        LeafAt::Known(place) => Origin::Known(*pools.known.at(place)),
    }
}

/// An operand whose leaf is told already, whether the newest frame has it or the pools do. So an instruction with two
/// operands looks once at where each of them is had from.
#[inline(always)]
pub(crate) fn told(stack: &Stack, pools: &Pools, leaf: LeafAt) -> Origin
    requires there { HasPlace (length (newest stack.now.frames).leaves) leaf }
    requires within { IsLeafIn pools.now leaf }
    ensures { result ≡ Known (read (newest stack.now.frames) (leaf_of pools.now leaf)) }
{
    let operand = origin(pools, leaf);
    let value = stack.read(&operand);
    Origin::Known(value)
}

/// The way at a place, where it lies in the pools.
#[inline]
pub(crate) fn way(pools: &Pools, place: u32) -> &Edge
    requires { IsEdgeIn pools.now place }
    ensures there { slice_get pools.now.edges place ≡ Some result.now }
    ensures means { way_of pools.now.moves result.now ≡ edge_at pools.now place }
{
    pools.edges.at(place)
}
