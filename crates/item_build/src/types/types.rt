//! Types.
ghost use Rattle.std.specs.Prelude.{◌≡◌, map, All, IfOk, IfSome, OnOk};
ghost use Rattle.ir_phrases.specs.Constants.View.{type_view};
ghost use Rattle.type_table.specs.Tree.{Structs, int, named};
ghost use Rattle.type_table.specs.Types.{structs};
ghost use Rattle.name_rules.specs.Written.{type_in};
ghost use Rattle.item_build.specs.Types.Fitting.{CanBe, AreWithin};
ghost use Rattle.item_build.specs.Types.Stands.{IsType, AreTypes, Grows};

use crate::types::builder::Builder;
use crate::types::integers::length_of;
use ir_base::ItemList;
use ir_phrases::constants::Type;
use ir_terminals::PlacedName;
use std::alloc::{AllocError, Global};
use type_table::{IrType, TypeId, TypeList};

impl Builder {
    /// Where the type that the text writes is, as a look at `ptr` and the integer types tells. None says nothing: it may be there all the
    /// same, and [`Builder::add_type`] finds or adds it.
    #[inline(always)]
    pub fn find_plain(&self, ty: &Type) -> Option<TypeId>
        ensures { IfSome result (λ id. IsType self.now.arena id (type_in (type_view ty.now))) }
    {
        match ty {
            Type::Integer(_, width) => self.find_integer(*width),
            Type::Ptr(_) => self.find_address(),
            Type::Void(_) | Type::Array(_, _) | Type::Struct(_, _, _) | Type::Named(_) => None,
        }
    }

    /// The id of the type that the text writes. One that is plain and there, as nearly all are, has a short way.
    pub fn add_type(&mut self, alloc: Global, ty: &Type) -> Result<TypeId, AllocError>
        requires { CanBe (structs self.old.arena.table) (type_in (type_view ty.now)) }
        ensures grows { OnOk result (Grows self.old.arena self.new.arena) }
        ensures is { IfOk result (λ id. IsType self.new.arena id (type_in (type_view ty.now))) }
        ensures within { (whole : Structs) → CanBe whole (type_in (type_view ty.now)) → AreWithin whole self.old.arena → OnOk result (AreWithin whole self.new.arena) }
    {
        if let Some(id) = self.find_plain(ty) {
            return Ok(id);
        }
        self.add_written(alloc, ty)
    }

    /// The same of any type.
    #[cycle(types)]
    #[inline(never)]
    fn add_written(&mut self, alloc: Global, ty: &Type) -> Result<TypeId, AllocError>
        requires { CanBe (structs self.old.arena.table) (type_in (type_view ty.now)) }
        ensures grows { OnOk result (Grows self.old.arena self.new.arena) }
        ensures is { IfOk result (λ id. IsType self.new.arena id (type_in (type_view ty.now))) }
        ensures within { (whole : Structs) → CanBe whole (type_in (type_view ty.now)) → AreWithin whole self.old.arena → OnOk result (AreWithin whole self.new.arena) }
    {
        match ty {
            Type::Integer(_, width) => self.add_integer(alloc, *width),
            Type::Ptr(_) => self.keep_type(alloc, IrType::Ptr),
            Type::Void(_) => self.keep_type(alloc, IrType::Void),
            Type::Array(_, array) => {
                let length = length_of(&array.count);
                let element = self.add_written(alloc, &array.element)?;
                self.keep_type(alloc, IrType::Array(length, element))
            }
            Type::Struct(_, packed, fields) => {
                let fields = self.add_types(alloc, fields)?;
                self.keep_type(alloc, IrType::Struct(*packed, fields))
            }
            Type::Named(name) => self.add_named(alloc, name),
        }
    }

    fn add_integer(&mut self, alloc: Global, width: u8) -> Result<TypeId, AllocError>
        requires { CanBe (structs self.old.arena.table) (int width) }
        ensures grows { OnOk result (Grows self.old.arena self.new.arena) }
        ensures is { IfOk result (λ id. IsType self.new.arena id (int width)) }
        ensures within { (whole : Structs) → CanBe whole (int width) → AreWithin whole self.old.arena → OnOk result (AreWithin whole self.new.arena) }
    {
        self.keep_type(alloc, IrType::Int(width))
    }

    fn add_named(&mut self, alloc: Global, name: &PlacedName) -> Result<TypeId, AllocError>
        requires { CanBe (structs self.old.arena.table) (named name.now.name) }
        ensures grows { OnOk result (Grows self.old.arena self.new.arena) }
        ensures is { IfOk result (λ id. IsType self.new.arena id (named name.now.name)) }
        ensures within { (whole : Structs) → CanBe whole (named name.now.name) → AreWithin whole self.old.arena → OnOk result (AreWithin whole self.new.arena) }
    {
        let name = name.name.to_name(alloc)?;
        let Some(id) = self.arena.types().struct_of(&name) else {
            unreachable!();
        };
        self.keep_type(alloc, IrType::Named(id))
    }

    /// The ids of the types that the text writes, in order.
    #[cycle(types)]
    pub fn add_types(&mut self, alloc: Global, types: &[Type]) -> Result<TypeList, AllocError>
        requires { All (λ t. CanBe (structs self.old.arena.table) (type_in (type_view t))) types.now }
        ensures grows { OnOk result (Grows self.old.arena self.new.arena) }
        ensures are { IfOk result (λ ids. AreTypes self.new.arena ids (map (λ t. type_in (type_view t)) types.now)) }
        ensures within { (whole : Structs) → All (λ t. CanBe whole (type_in (type_view t))) types.now → AreWithin whole self.old.arena → OnOk result (AreWithin whole self.new.arena) }
    {
        let mut ids = Vec::with_capacity(alloc, types.len())?;
        for ty in types {
            let id = self.add_written(alloc, ty)?;
            ids.push(id)?;
        }
        Ok(ItemList::from_vec(ids))
    }
}
