//! Arenas whose module is well formed and valid.
ghost use Rattle.std.specs.Prelude.{◌≡◌, IfOk};
ghost use Rattle.module_arena.specs.Valid.{IsValid};
ghost use Rattle.module_arena.specs.View.{module_of};
ghost use Rattle.module_arena.specs.WellFormed.{IsWellFormed};

use crate::Arena;
use std::alloc::{AllocError, Global};
use std::marker::Model;

/// An arena whose module is well formed and valid.
#[derive(Drop)]
pub struct Checked {
    arena: Arena,
}

impl Model for Checked {
    ghost use Rattle.module_arena.specs.Lists.{Lists};
    ghost use Rattle.module_arena.specs.Sound.{IsSound};

    ghost Value = { Lists };

    ghost view = { λ c. c.arena };

    ghost invariant = { λ c. IsSound c.arena };
}

impl Checked {
    /// The arena, from now on as it is.
    pub fn seal(arena: Arena) -> Checked
        requires well_formed { IsWellFormed (module_of arena) }
        requires valid { IsValid (module_of arena) }
        ensures { result ≡ arena }
    {
        Checked { arena }
    }

    /// The arena.
    pub fn arena(&self) -> &Arena
        ensures arena { result.now ≡ self.now }
        ensures well_formed { IsWellFormed (module_of self.now) }
        ensures valid { IsValid (module_of self.now) }
    {
        &self.arena
    }

    /// An equal module of its own.
    pub fn copy(&self, alloc: Global) -> Result<Checked, AllocError>
        ensures { IfOk result (λ copy. copy ≡ self.now) }
    {
        let arena = self.arena.copy(alloc)?;
        Ok(Checked { arena })
    }
}
