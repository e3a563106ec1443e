//! The new ids of what is copied.
ghost use Rattle.std.specs.Prelude.{◌≡◌, [], ◌∷◌, ◌++◌, length, slice_index_or, None, OnOk};
ghost use Rattle.entry_copy.specs.Tables.{tables_of, with_entries, with_types, with_constants, new_struct, new_type, new_constant, new_global};

use module_arena::{ConstId, GlobalId};
use std::alloc::{AllocError, Global};
use std::marker::Model;
use type_table::{StructId, TypeId};

/// The new ids of the structs, types, constants and entries of an arena that is copied to another.
#[derive(Drop)]
pub struct Copier {
    structs: Vec<StructId>,
    types: Vec<TypeId>,
    constants: Vec<ConstId>,
    variables: Vec<Option<GlobalId>>,
    functions: Vec<Option<GlobalId>>,
    aliases: Vec<Option<GlobalId>>,
}

impl Model for Copier {
    ghost use Rattle.entry_copy.specs.Tables.{Tables};

    ghost Value = { Tables };

    ghost view = { λ c. record { structs = c.structs.items; types = c.types.items; constants = c.constants.items; variables = c.variables.items; functions = c.functions.items; aliases = c.aliases.items } };
}

impl Copier {
    /// Nothing is copied yet. `structs` are the new ids of the old structs, in their order; one behind the list keeps its id.
    pub fn new(alloc: Global, structs: Vec<StructId>) -> Copier
        ensures { result ≡ tables_of structs.items }
    {
        Copier {
            structs,
            types: Vec::new(alloc),
            constants: Vec::new(alloc),
            variables: Vec::new(alloc),
            functions: Vec::new(alloc),
            aliases: Vec::new(alloc),
        }
    }

    /// Sets the new ids of the old variables, functions and aliases, each in their order, where they have one.
    pub fn set_entries(
        &mut self,
        variables: Vec<Option<GlobalId>>,
        functions: Vec<Option<GlobalId>>,
        aliases: Vec<Option<GlobalId>>,
    )
        ensures { self.new ≡ with_entries self.old variables.items functions.items aliases.items }
    {
        self.variables = variables;
        self.functions = functions;
        self.aliases = aliases;
    }

    /// The new id of a struct. One that has none keeps its own.
    pub fn new_struct(&self, id: StructId) -> StructId
        ensures { result ≡ new_struct self.now id }
    {
        let place = id.number() as usize;
        self.structs.get(place).copied().unwrap_or(id)
    }

    /// The new id of a type. One that has none keeps its own.
    pub fn new_type(&self, ty: TypeId) -> TypeId
        ensures { result ≡ new_type self.now ty }
    {
        let place = ty.number() as usize;
        self.types.get(place).copied().unwrap_or(ty)
    }

    /// The new id of a constant. One that has none keeps its own.
    pub fn new_constant(&self, id: ConstId) -> ConstId
        ensures { result ≡ new_constant self.now id }
    {
        let place = id.number() as usize;
        self.constants.get(place).copied().unwrap_or(id)
    }

    /// The new id of an entry, where it has one.
    pub fn new_global(&self, id: GlobalId) -> Option<GlobalId>
        ensures { result ≡ new_global self.now id }
    {
        match id {
            GlobalId::Variable(id) => new_entry(&self.variables, id.number()),
            GlobalId::Function(id) => new_entry(&self.functions, id.number()),
            GlobalId::Alias(id) => new_entry(&self.aliases, id.number()),
        }
    }

    /// How many types were copied: the first ones.
    pub fn type_count(&self) -> u64
        ensures { result ≡ length self.now.types }
    {
        self.types.len() as u64
    }

    /// How many constants were copied: the first ones.
    pub fn constant_count(&self) -> u64
        ensures { result ≡ length self.now.constants }
    {
        self.constants.len() as u64
    }

    /// The next type has this new id.
    pub(crate) fn push_type(&mut self, id: TypeId) -> Result<(), AllocError>
        ensures { OnOk result (self.new ≡ with_types self.old (self.old.types ++ id ∷ [])) }
    {
        self.types.push(id)?;
        Ok(())
    }

    /// The next constant has this new id.
    pub(crate) fn push_constant(&mut self, id: ConstId) -> Result<(), AllocError>
        ensures { OnOk result (self.new ≡ with_constants self.old (self.old.constants ++ id ∷ [])) }
    {
        self.constants.push(id)?;
        Ok(())
    }
}

/// The new id of the entry with that number, where it has one.
fn new_entry(entries: &[Option<GlobalId>], number: u32) -> Option<GlobalId>
    ensures { result ≡ slice_index_or entries.now number None }
{
    entries.get(number as usize).copied().unwrap_or(None)
}
