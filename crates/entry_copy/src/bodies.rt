//! Blocks and bodies.
ghost use Rattle.std.specs.Prelude.{◌≡◌, List, map, flat_map, length, All, IfOk};
ghost use Rattle.module_arena.specs.Known.{KnowsBody};
ghost use Rattle.module_arena.specs.Lists.{Lists};
ghost use Rattle.module_arena.specs.Module.{Bytes, LocalName};
ghost use Rattle.module_arena.specs.Renamed.{renamed_block};
ghost use Rattle.module_arena.specs.UsedNames.{names_in_block};
ghost use Rattle.entry_copy.specs.Copies.{Copies, HasNew, IsBody, blocks_of};
ghost use Rattle.entry_copy.specs.Moved.{moved_block, moved_body};

use crate::Copier;
use crate::endings::moved_ending;
use crate::moved::{Moved, moved_list, same_names};
use module_arena::{Block, Body, copied_name};
use std::alloc::{AllocError, Global};

impl Moved for Block {
    ghost moved_by = { moved_block };

    fn moved(&self, alloc: Global, copier: &Copier) -> Result<Block, AllocError> {
        Ok(Block {
            name: copied_name(alloc, &self.name)?,
            instructions: moved_list(alloc, copier, &self.instructions)?,
            end: moved_ending(alloc, copier, &self.end)?,
        })
    }
}

impl Copier {
    /// The body of a function, its types and constants by their new ids. Each entry that is named in it has a new id. Only
    /// memory may be wanting.
    pub fn copy_body(&self, alloc: Global, body: &Body) -> Result<Body, AllocError>
        ensures ids { IfOk result (λ copy. copy ≡ moved_body self.now body.now) }
        ensures is { (structs globals : Bytes → Bytes) (a b : Lists) (parameters : List LocalName) → Copies structs globals a b self.now
            → KnowsBody (length a.table.types) (length a.constants) (length parameters) body.now
            → All (HasNew a self.now) (flat_map names_in_block (blocks_of a parameters body.now))
            → IfOk result (λ copy. IsBody b parameters copy (map (renamed_block structs globals) (blocks_of a parameters body.now))) }
    {
        Ok(Body {
            blocks: moved_list(alloc, self, &body.blocks)?,
            results: same_names(alloc, &body.results)?,
        })
    }
}
