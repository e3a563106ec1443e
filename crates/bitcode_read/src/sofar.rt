//! What was read of a module's block so far.
ghost use Rattle.std.specs.Prelude.{◌≡◌, [], None};

use body_read::ahead::BodyAhead;
use ir_base::Text;
use module_arena::{Body, ConstId, GlobalId};
use std::alloc::Global;

/// What was read of a module's block so far, but for the types, the entries that are declared, and the constants, which the
/// arena has. What entries hold is set in the arena at the end, when all of it is read.
#[derive(Drop)]
pub(crate) struct Sofar {
    /// The place of what came last, or 0.
    pub(crate) last: u8,
    pub(crate) source: Option<Text>,
    pub(crate) layout: Option<Text>,
    pub(crate) triple: Option<Text>,
    /// Of each variable that was read what it is set to.
    pub(crate) initialisers: Vec<Option<ConstId>>,
    /// Of each function that was read whether it is defined.
    pub(crate) defined: Vec<bool>,
    /// The numbers of the functions that are defined, in order.
    pub(crate) numbers: Vec<u32>,
    /// Of each alias that was read what it is of.
    pub(crate) targets: Vec<Option<GlobalId>>,
    /// Of the functions that are defined the bodies, as far as they came.
    pub(crate) bodies: Vec<Body>,
    /// What is known ahead of the bodies, in their order.
    pub(crate) ahead: Vec<BodyAhead>,
}

impl Sofar {
    /// Nothing was read yet.
    pub(crate) fn new(alloc: Global) -> Sofar
        ensures last { result.last ≡ 0 }
        ensures texts { (result.source ≡ None) × (result.layout ≡ None) × (result.triple ≡ None) }
        ensures entries { (result.initialisers.items ≡ []) × (result.defined.items ≡ []) × (result.targets.items ≡ []) }
        ensures numbers { result.numbers.items ≡ [] }
        ensures bodies { result.bodies.items ≡ [] }
    {
        Sofar {
            last: 0,
            source: None,
            layout: None,
            triple: None,
            initialisers: Vec::new(alloc),
            defined: Vec::new(alloc),
            numbers: Vec::new(alloc),
            targets: Vec::new(alloc),
            bodies: Vec::new(alloc),
            ahead: Vec::new(alloc),
        }
    }
}
