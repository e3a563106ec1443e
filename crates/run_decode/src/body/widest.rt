//! How many leaves edges set at once.
ghost use Rattle.std.specs.Prelude.{◌≡◌, ◌-◌, ◌≤◌, All};
ghost use Rattle.run_decode.specs.Body.Bodies.{AreNarrow};

use crate::flat::Pools;
use run_actions::{Edge, SwitchWay};

/// How many leaves an edge sets. One whose moves end before they begin sets none.
#[inline]
fn moves_of(edge: &Edge) -> u32
    ensures { result ≡ edge.now.end - edge.now.first }
{
    edge.end.saturating_sub(edge.first)
}

/// How many leaves one of the edges sets at most.
fn widest_edge(edges: &[Edge]) -> u32
    ensures { All (λ e. e.end - e.first ≤ result) edges.now }
{
    let mut widest = 0;
    'edges: for edge in edges {
        widest = moves_of(edge).max(widest);
    }
    widest
}

/// How many leaves the edge of one of the cases sets at most.
fn widest_case(cases: &[SwitchWay]) -> u32
    ensures { All (λ c. c.edge.end - c.edge.first ≤ result) cases.now }
{
    let mut widest = 0;
    'cases: for case in cases {
        widest = moves_of(&case.edge).max(widest);
    }
    widest
}

/// How many leaves an edge of a body sets at most, be it an edge of its own or of a case.
pub fn widest_way(pools: &Pools) -> u32
    ensures { AreNarrow pools.now result }
{
    widest_edge(pools.edges.items()).max(widest_case(pools.cases.items()))
}
