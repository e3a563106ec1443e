//! The lists of a body, into which its actions point.
ghost use Rattle.std.specs.Prelude.{◌≡◌};
ghost use Rattle.run_decode.specs.Flat.Grown.{no_pools};

use crate::flat::action::{CallParts, Term};
use crate::flat::pool::Pool;
use ir_eval::Scalar;
use run_actions::stack::{Move, Origin};
use run_actions::{Arm, Edge, FrozenLeaf, SwitchWay};
use run_names::values::Slot;
use std::alloc::Global;
use type_table::TypeId;

/// The lists of a body, into which its actions point. What belongs to one action or value stands one after another.
#[derive(Drop)]
pub struct Pools {
    /// Leaves that are known.
    pub known: Pool<Scalar>,
    /// Where the leaves of values are had from.
    pub origins: Pool<Origin>,
    /// The slots of types.
    pub slots: Pool<Slot>,
    /// The terms of `getelementptr`.
    pub terms: Pool<Term>,
    /// The sums of those terms that are gathered, in bytes.
    pub sums: Pool<i128>,
    /// What phis get on edges.
    pub moves: Pool<Move>,
    /// Ways into blocks, but for those of cases.
    pub edges: Pool<Edge>,
    /// The cases of `switch`.
    pub cases: Pool<SwitchWay>,
    /// The leaves of both operands of `select`.
    pub arms: Pool<Arm>,
    /// The leaves of the operand of `freeze`.
    pub parts: Pool<FrozenLeaf>,
    /// The further parts of calls.
    pub calls: Pool<CallParts>,
    /// The types of parameters and arguments.
    pub types: Pool<TypeId>,
}

impl Pools {
    /// Empty pools.
    pub fn new(alloc: Global) -> Pools
        ensures { result ≡ no_pools }
    {
        Pools {
            known: Pool::new(alloc),
            origins: Pool::new(alloc),
            slots: Pool::new(alloc),
            terms: Pool::new(alloc),
            sums: Pool::new(alloc),
            moves: Pool::new(alloc),
            edges: Pool::new(alloc),
            cases: Pool::new(alloc),
            arms: Pool::new(alloc),
            parts: Pool::new(alloc),
            calls: Pool::new(alloc),
            types: Pool::new(alloc),
        }
    }
}
