//! An arena in the making, and what is known of the types and constants in it.
ghost use Rattle.std.specs.Prelude.{◌≡◌, length, slice_get, Some, IfOk, IfSome, OnOk};
ghost use Rattle.type_table.specs.Limits.{IsWithinLimits};
ghost use Rattle.type_table.specs.Shape.{shape};
ghost use Rattle.type_table.specs.Tree.{Structs, int, ptr};
ghost use Rattle.type_table.specs.declared.ir_type.IrType.TheVariants.{Int, Ptr};
ghost use Rattle.type_table.specs.Types.{IsKnown, names, trees, structs, tree_of};
ghost use Rattle.module_arena.specs.Lists.{no_lists, name_at};
ghost use Rattle.module_arena.specs.Known.{counts, HasGlobal, KnowsConst};
ghost use Rattle.module_arena.specs.Module as m;
ghost use Rattle.module_arena.specs.declared.constant.Const.TheVariants as the_const;
ghost use Rattle.module_arena.specs.Changes.{constant_in};
ghost use Rattle.item_build.specs.Types.Fitting.{AreWithin};
ghost use Rattle.item_build.specs.Types.Stands.{IsType, IsConstant, Grows};

use crate::types::constant_places::ConstantPlaces;
use crate::types::copies::copied_const;
use crate::types::type_places::TypePlaces;
use crate::types::wanting::type_out_of_memory;
use module_arena::{Arena, Const, ConstId, GlobalId};
use std::alloc::{AllocError, Global};
use type_table::{IrType, TypeId};

/// An arena in the making. Equal types and equal constants are meant to be kept once, which no contract says: `types` and
/// `constants` tell where they may be, and each answer of theirs is looked up in the arena.
#[derive(Drop)]
pub struct Builder {
    /// What is built so far.
    pub arena: Arena,
    types: TypePlaces,
    constants: ConstantPlaces,
}

impl Builder {
    /// Nothing is built yet.
    pub fn new(alloc: Global) -> Builder
        ensures { result.arena ≡ no_lists }
    {
        Builder {
            arena: Arena::new(alloc),
            types: TypePlaces::new(alloc),
            constants: ConstantPlaces::new(alloc),
        }
    }

    /// Where an equal type is.
    fn find_type(&self, ty: &IrType) -> Option<TypeId>
        ensures { IfSome result (λ id. slice_get self.now.arena.table.types id ≡ Some ty.now) }
    {
        let id = self.types.get(ty)?;
        let table = self.arena.types();
        if id.number() < table.type_count() && *table.get(id) == *ty {
            Some(id)
        } else {
            None
        }
    }

    /// Where the integer type of that width was put, if it is there.
    fn hinted_integer(&self, width: u8) -> Option<TypeId>
        ensures { IfSome result (λ id. slice_get self.now.arena.table.types id ≡ Some (Int width)) }
    {
        let id = self.types.integer(width);
        let table = self.arena.types();
        if id.number() >= table.type_count() {
            return None;
        }
        match table.get(id) {
            IrType::Int(known) if *known == width => Some(id),
            _ => None,
        }
    }

    /// Where `ptr` was put, if it is there.
    fn hinted_address(&self) -> Option<TypeId>
        ensures { IfSome result (λ id. slice_get self.now.arena.table.types id ≡ Some Ptr) }
    {
        let id = self.types.address();
        let table = self.arena.types();
        if id.number() >= table.type_count() {
            return None;
        }
        match table.get(id) {
            IrType::Ptr => Some(id),
            _ => None,
        }
    }

    /// Where the integer type of that width is.
    pub(crate) fn find_integer(&self, width: u8) -> Option<TypeId>
        ensures { IfSome result (λ id. IsType self.now.arena id (int width)) }
    {
        let _good_types = self.arena.types().type_count();
        self.hinted_integer(width)
    }

    /// Where `ptr` is.
    pub(crate) fn find_address(&self) -> Option<TypeId>
        ensures { IfSome result (λ id. IsType self.now.arena id ptr) }
    {
        let _good_types = self.arena.types().type_count();
        self.hinted_address()
    }

    /// The id of the type, of which no equal one was found, and which is added.
    #[cold]
    #[inline(never)]
    fn keep_new_type(&mut self, alloc: Global, ty: IrType) -> Result<TypeId, AllocError>
        requires known { IsKnown self.old.arena.table ty }
        requires fits { IsWithinLimits (shape (structs self.old.arena.table) (tree_of (names self.old.arena.table) (trees self.old.arena.table) ty)) }
        ensures grows { OnOk result (Grows self.old.arena self.new.arena) }
        ensures is { IfOk result (λ id.
            IsType self.new.arena id (tree_of (names self.old.arena.table) (trees self.old.arena.table) ty)) }
        ensures within { (whole : Structs) → IsWithinLimits (shape whole (tree_of (names self.old.arena.table) (trees self.old.arena.table) ty)) → AreWithin whole self.old.arena
            → OnOk result (AreWithin whole self.new.arena) }
    {
        let _good = self.arena.variable_count();
        let _good_types = self.arena.types().type_count();
        let key = ty.copy(alloc)?;
        let id = match self.arena.add_type(ty) {
            Ok(id) => id,
            Err(fault) => return Err(type_out_of_memory(fault)),
        };
        self.types.insert(key, id)?;
        Ok(id)
    }

    /// The id of the type, which is added where no equal one is there. Nearly always one is.
    #[inline(always)]
    pub fn keep_type(&mut self, alloc: Global, ty: IrType) -> Result<TypeId, AllocError>
        requires known { IsKnown self.old.arena.table ty }
        requires fits { IsWithinLimits (shape (structs self.old.arena.table) (tree_of (names self.old.arena.table) (trees self.old.arena.table) ty)) }
        ensures grows { OnOk result (Grows self.old.arena self.new.arena) }
        ensures is { IfOk result (λ id.
            IsType self.new.arena id (tree_of (names self.old.arena.table) (trees self.old.arena.table) ty)) }
        ensures within { (whole : Structs) → IsWithinLimits (shape whole (tree_of (names self.old.arena.table) (trees self.old.arena.table) ty)) → AreWithin whole self.old.arena
            → OnOk result (AreWithin whole self.new.arena) }
    {
        let _good_types = self.arena.types().type_count();
        if let Some(id) = self.find_type(&ty) {
            return Ok(id);
        }
        self.keep_new_type(alloc, ty)
    }

    /// Where the integer is.
    fn find_number(&self, number: u128) -> Option<ConstId>
        ensures { IfSome result (λ id. slice_get self.now.arena.constants id ≡ Some (the_const.Integer number)) }
    {
        let id = self.constants.integer(number)?;
        if id.number() >= self.arena.const_count() {
            return None;
        }
        match self.arena.constant(id) {
            Const::Integer(known) if *known == number => Some(id),
            _ => None,
        }
    }

    /// The id of the integer, of which no equal one was found, and which is added.
    #[inline(never)]
    fn keep_new_number(&mut self, alloc: Global, number: u128) -> Result<ConstId, AllocError>
        ensures grows { OnOk result (Grows self.old.arena self.new.arena) }
        ensures is { IfOk result (λ id. IsConstant self.new.arena id (m.Integer number)) }
    {
        let _good = self.arena.variable_count();
        let Ok(id) = self.arena.add_const(Const::Integer(number)) else {
            return Err(AllocError);
        };
        self.constants.insert_integer(alloc, number, id)?;
        Ok(id)
    }

    /// The id of the integer, which is added where it is not there.
    pub(crate) fn keep_number(&mut self, alloc: Global, number: u128) -> Result<ConstId, AllocError>
        ensures grows { OnOk result (Grows self.old.arena self.new.arena) }
        ensures is { IfOk result (λ id. IsConstant self.new.arena id (m.Integer number)) }
    {
        let _good = self.arena.variable_count();
        if let Some(id) = self.find_number(number) {
            return Ok(id);
        }
        self.keep_new_number(alloc, number)
    }

    /// Where the address of the entry is.
    fn find_address_of(&self, entry: &GlobalId) -> Option<ConstId>
        ensures { IfSome result (λ id. slice_get self.now.arena.constants id ≡ Some (the_const.Address entry.now)) }
    {
        let id = self.constants.address(entry)?;
        if id.number() >= self.arena.const_count() {
            return None;
        }
        match self.arena.constant(id) {
            Const::Address(known) if *known == *entry => Some(id),
            _ => None,
        }
    }

    /// The id of the address of the entry, of which no equal one was found, and which is added.
    #[inline(never)]
    fn keep_new_address(&mut self, alloc: Global, entry: &GlobalId) -> Result<ConstId, AllocError>
        requires { HasGlobal (counts self.old.arena) entry.now }
        ensures grows { OnOk result (Grows self.old.arena self.new.arena) }
        ensures is { IfOk result (λ id. IsConstant self.new.arena id (m.Address (name_at self.old.arena entry.now))) }
    {
        let _good = self.arena.variable_count();
        let Ok(id) = self.arena.add_const(Const::Address(*entry)) else {
            return Err(AllocError);
        };
        self.constants.insert_address(alloc, entry, id)?;
        Ok(id)
    }

    /// The id of the address of the entry, which is added where it is not there.
    pub(crate) fn keep_entry(
        &mut self,
        alloc: Global,
        entry: &GlobalId,
    ) -> Result<ConstId, AllocError>
        requires { HasGlobal (counts self.old.arena) entry.now }
        ensures grows { OnOk result (Grows self.old.arena self.new.arena) }
        ensures is { IfOk result (λ id. IsConstant self.new.arena id (m.Address (name_at self.old.arena entry.now))) }
    {
        let _good = self.arena.variable_count();
        if let Some(id) = self.find_address_of(entry) {
            return Ok(id);
        }
        self.keep_new_address(alloc, entry)
    }

    /// Where an equal constant is.
    fn find_constant(&self, constant: &Const) -> Option<ConstId>
        ensures { IfSome result (λ id. slice_get self.now.arena.constants id ≡ Some constant.now) }
    {
        let id = self.constants.get(constant)?;
        if id.number() < self.arena.const_count() && *self.arena.constant(id) == *constant {
            Some(id)
        } else {
            None
        }
    }

    /// The id of the constant, which is no integer and no address, and which is added where no equal one is there.
    #[inline(never)]
    fn keep_other(&mut self, alloc: Global, constant: Const) -> Result<ConstId, AllocError>
        requires { KnowsConst (length self.old.arena.table.types) (counts self.old.arena) (length self.old.arena.constants) constant }
        ensures grows { OnOk result (Grows self.old.arena self.new.arena) }
        ensures is { IfOk result (λ id. IsConstant self.new.arena id (constant_in self.old.arena constant)) }
    {
        let _good = self.arena.variable_count();
        if let Some(id) = self.find_constant(&constant) {
            return Ok(id);
        }
        let key = copied_const(alloc, &constant)?;
        let Ok(id) = self.arena.add_const(constant) else {
            return Err(AllocError);
        };
        self.constants.insert(key, id)?;
        Ok(id)
    }

    /// The id of the constant, which is added where no equal one is there.
    pub fn keep_constant(&mut self, alloc: Global, constant: Const) -> Result<ConstId, AllocError>
        requires { KnowsConst (length self.old.arena.table.types) (counts self.old.arena) (length self.old.arena.constants) constant }
        ensures grows { OnOk result (Grows self.old.arena self.new.arena) }
        ensures is { IfOk result (λ id. IsConstant self.new.arena id (constant_in self.old.arena constant)) }
    {
        match constant {
            Const::Integer(number) => self.keep_number(alloc, number),
            Const::Address(entry) => self.keep_entry(alloc, &entry),
            other => self.keep_other(alloc, other),
        }
    }
}
