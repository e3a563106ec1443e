//! What the values and the blocks of a function are called.
ghost use Rattle.std.specs.Prelude.{◌≡◌, []};

use crate::instruction_build::local_ids::LocalIds;
use std::alloc::Global;

/// The locals of a function, by their ids.
///
/// ```
/// // of `define void @f(i32 %x) { .. }`
/// let mut locals = Locals::new(alloc);
/// locals.values.add(alloc, 0, &parameter.name)? // its id, 0
/// locals.values.names.len() // 1
/// ```
#[derive(Drop)]
pub struct Locals<'a> {
    /// What its values are called, parameters first.
    pub values: LocalIds<'a>,
    /// What its blocks are called.
    pub blocks: LocalIds<'a>,
}

impl<'a> Locals<'a> {
    /// None yet.
    pub fn new(alloc: Global) -> Locals<'a>
        ensures values { result.values.names.items ≡ [] }
        ensures blocks { result.blocks.names.items ≡ [] }
    {
        Locals {
            values: LocalIds::new(alloc),
            blocks: LocalIds::new(alloc),
        }
    }

    /// Takes all out, for those of another function.
    pub fn clear(&mut self, alloc: Global)
        ensures values { self.new.values.names.items ≡ [] }
        ensures blocks { self.new.blocks.names.items ≡ [] }
    {
        self.values.clear(alloc);
        self.blocks.clear(alloc);
    }
}
