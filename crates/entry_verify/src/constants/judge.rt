//! An arena, ready to be judged.
ghost use Rattle.std.specs.Prelude.{◌≡◌, ◌<◌, length, IfOk};
ghost use Rattle.type_table.specs.Types.{tree, structs};
ghost use Rattle.type_table.specs.Tree.{Tree};
ghost use Rattle.module_arena.specs.Changes.{constant_in};
ghost use Rattle.module_arena.specs.Constants.{fits};
ghost use Rattle.module_arena.specs.EntryRules.{takes_no_intrinsic, constant_types_suit};
ghost use Rattle.module_arena.specs.View.{constant_at, constants_of, module_of};

use crate::constants::constants::{ConstFact, fact_at, facts_of};
use crate::constants::fits::fits_outside;
use crate::types::TypeJudge;
use module_arena::{Arena, Const, ConstId};
use std::alloc::{AllocError, Global};
use std::marker::Model;
use type_table::TypeId;

/// The module of an arena, with what is asked of its types and constants at hand.
#[derive(Drop)]
pub struct Judge<'a> {
    arena: &'a Arena,
    types: TypeJudge<'a>,
    /// For each constant, what is known of it.
    facts: Vec<ConstFact>,
}

impl<'a> Model for Judge<'a> {
    ghost use Rattle.module_arena.specs.Lists.{Lists};
    ghost use Rattle.entry_verify.specs.Constants.IsJudge.{IsJudge};

    ghost Value = { Lists };

    ghost view = { λ j. j.arena.now };

    ghost invariant = { λ j. IsJudge j.arena.now j.types j.facts.items };
}

impl<'a> Judge<'a> {
    /// A judge of the module of the arena.
    pub fn new(alloc: Global, arena: &'a Arena) -> Result<Judge<'a>, AllocError>
        ensures { IfOk result (λ judge. judge ≡ arena.now) }
    {
        // What holds of the lists of each arena.
        let _count = arena.variable_count();
        let types = TypeJudge::new(alloc, arena.types())?;
        let facts = facts_of(alloc, arena, &types)?;
        Ok(Judge {
            arena,
            types,
            facts,
        })
    }

    /// The arena.
    pub fn arena(&self) -> &Arena
        ensures { result.now ≡ self.now }
    {
        self.arena
    }

    /// Its types.
    pub fn types(&self) -> &TypeJudge<'a>
        ensures { result.now ≡ self.now.table }
    {
        &self.types
    }

    /// A constant of the arena.
    pub fn constant(&self, id: ConstId) -> &Const
        requires { id < length self.now.constants }
        ensures { constant_at (constants_of self.now) id ≡ constant_in self.now result.now }
    {
        self.arena.constant(id)
    }

    /// Whether the constant takes the address of no intrinsic, at any depth.
    pub fn takes_no_intrinsic(&self, id: ConstId) -> bool
        requires { id < length self.now.constants }
        ensures { (t : Tree) → result ≡ takes_no_intrinsic (module_of self.now) t (constant_at (constants_of self.now) id) }
    {
        fact_at(&self.facts, id).takes_no_intrinsic
    }

    /// Whether the types that the constant writes suit, at any depth.
    pub fn types_suit(&self, id: ConstId) -> bool
        requires { id < length self.now.constants }
        ensures { (t : Tree) → result ≡ constant_types_suit (structs self.now.table) t (constant_at (constants_of self.now) id) }
    {
        fact_at(&self.facts, id).types_suit
    }

    /// Whether the constant can stand where that type is written.
    pub fn fits(&self, ty: TypeId, id: ConstId) -> bool
        requires ty { ty < length self.now.table.types }
        requires id { id < length self.now.constants }
        ensures { result ≡ fits (structs self.now.table) (tree self.now.table ty) (constant_at (constants_of self.now) id) }
    {
        let fact = fact_at(&self.facts, id);
        let outside = fits_outside(self.arena, &self.types, ty, self.arena.constant(id));
        outside & fact.parts_fit
    }
}
