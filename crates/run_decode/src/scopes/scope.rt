//! What the ids in a function stand for.
ghost use Rattle.std.specs.Prelude.{◌≡◌, ◌<◌, IfOk, IfSome, Some, length, slice_get};
ghost use Rattle.module_arena.specs.declared.entry.Function as the_function;
ghost use Rattle.module_arena.specs.Lists.{function_blocks, value_names};
ghost use Rattle.run_initial.specs.Constants.Sound.{names_of};
ghost use Rattle.run_rules.specs.Scope.{leaf_count};
ghost use Rattle.run_decode.specs.Scopes.Places.{HasValues};
ghost use Rattle.run_decode.specs.Scopes.Scopes.{AreApart, IsPlaced, function_of, labels_in, to_of};

use crate::scopes::places::places_of;
use module_arena::{Block, BlockId, Function, FunctionId, ValueId};
use run_names::Names;
use std::alloc::{AllocError, Global};
use std::marker::Model;
use type_table::TypeTable;

/// A function of a module, and where the leaves of its parameters and results stand in a frame.
#[derive(Drop)]
pub struct FunctionScope<'a, 'm> {
    alloc: Global,
    names: &'a Names<'m>,
    function: &'a Function,
    places: Vec<u32>,
}

impl<'a, 'm> Model for FunctionScope<'a, 'm> {
    ghost use Rattle.run_decode.specs.Scopes.Scopes.{Framed, IsFramed};

    ghost Value = { Framed };

    ghost view = { λ s. record { lists = s.names.now; function = s.function.now; places = s.places.items } };

    ghost invariant = { λ s. IsFramed s.names.now s.function.now s.places.items };
}

impl<'a, 'm> FunctionScope<'a, 'm> {
    /// The scope of a function. It is refused for want of memory, or of places in a frame that 32 bits can count.
    pub fn new(
        alloc: Global,
        names: &'a Names<'m>,
        id: FunctionId,
    ) -> Result<FunctionScope<'a, 'm>, AllocError>
        requires id { id < length names.now.functions }
        requires values { (f : the_function.Function) → slice_get names.now.functions id ≡ Some f → HasValues names.now f }
        ensures lists { IfOk result (λ scope. scope.lists ≡ names.now) }
        ensures function { IfOk result (λ scope. slice_get names.now.functions id ≡ Some scope.function) }
    {
        let arena = names.program().arena();
        // The ids of the functions of an arena are those of the arena.
        let _count = arena.variable_count();
        let function = arena.function(id);
        let places = places_of(alloc, arena, function)?;
        Ok(FunctionScope {
            alloc,
            names,
            function,
            places,
        })
    }

    /// Where memory comes from.
    pub fn alloc(&self) -> Global {
        self.alloc
    }

    /// What the names of the module mean.
    pub fn names(&self) -> &'a Names<'m>
        ensures { result.now ≡ self.now.lists }
    {
        self.names
    }

    /// The function.
    pub fn function(&self) -> &'a Function
        ensures { result.now ≡ self.now.function }
    {
        self.function
    }

    /// The types of the module.
    pub fn types(&self) -> &'a TypeTable
        ensures { result.now ≡ self.now.lists.table }
    {
        self.names.program().arena().types()
    }

    /// How many blocks the function has.
    pub fn block_count(&self) -> u64
        ensures { result ≡ length (function_blocks self.now.function) }
    {
        self.function.block_count()
    }

    /// A block of the function.
    pub fn block(&self, id: BlockId) -> &'a Block
        requires { id < length (function_blocks self.now.function) }
        ensures block { slice_get (function_blocks self.now.function) id ≡ Some result.now }
        ensures apart { AreApart (labels_in self.now.lists self.now.function) }
    {
        self.function.block(id)
    }

    /// How many leaves a frame has: those of the parameters and results.
    pub fn leaves(&self) -> u32
        ensures { result ≡ leaf_count (names_of self.now.lists) (function_of self.now.lists self.now.function) }
    {
        self.places[self.places.len() - 1]
    }

    /// Where the leaves of a parameter or result begin in a frame, and where they end.
    pub fn bounds(&self, id: ValueId) -> (u32, u32)
        requires { id < length (value_names self.now.function) }
        ensures { IsPlaced self.now id result.0 result.1 }
    {
        let place = id.number() as usize;
        (self.places[place], self.places[place + 1])
    }

    /// Where a result goes: a call without one goes to the front of the frame.
    pub fn to(&self, value: Option<ValueId>) -> u32
        requires { IfSome value (λ id. id < length (value_names self.now.function)) }
        ensures { result ≡ to_of self.now value }
    {
        match value {
            Some(id) => self.bounds(id).0,
            None => 0,
        }
    }
}
