//! Types, and what has types alone in it.
ghost use Rattle.std.specs.Prelude.{◌≡◌, ◌+◌, ◌≤◌, ◌<◌, max, map, length, All, Some, IfOk, OnOk};
ghost use Rattle.type_table.specs.Tree.{Structs};
ghost use Rattle.type_table.specs.Types.{trees, tree_body};
ghost use Rattle.type_table.specs.Types as types;
ghost use Rattle.module_arena.specs.Known.{alias_types};
ghost use Rattle.module_arena.specs.Lists.{Lists};
ghost use Rattle.module_arena.specs.Module.{Bytes};
ghost use Rattle.module_arena.specs.Renamed.{renamed_body, renamed_parameter, renamed_alias_type};
ghost use Rattle.module_arena.specs.View.{parameter_view, alias_type_view};
ghost use Rattle.item_build.specs.Types.Fitting.{AreWithin};
ghost use Rattle.item_build.specs.Types.Parameters.{AreParameters};
ghost use Rattle.item_build.specs.Types.Stands.{Grows};
ghost use Rattle.entry_copy.specs.Copies.{CopiesTypes, AllFit, IsAliasType, IsStructBody};
ghost use Rattle.entry_copy.specs.Moved.{moved_type, moved_struct_body, moved_parameter, moved_alias_type, moved_signature};
ghost use Rattle.entry_copy.specs.Tables.{with_types, new_type};

use crate::Copier;
use crate::moved::{Moved, moved_list};
use item_build::types::Builder;
use module_arena::{AliasType, Arena, Parameter, ParameterList, Signature, copied_name};
use std::alloc::{AllocError, Global};
use type_table::{IrType, StructBody, TypeId};

impl Moved for TypeId {
    ghost moved_by = { new_type };

    fn moved(&self, _alloc: Global, copier: &Copier) -> Result<TypeId, AllocError> {
        Ok(copier.new_type(*self))
    }
}

impl Moved for IrType {
    ghost moved_by = { moved_type };

    fn moved(&self, alloc: Global, copier: &Copier) -> Result<IrType, AllocError> {
        Ok(match self {
            IrType::Int(width) => IrType::Int(*width),
            IrType::Ptr => IrType::Ptr,
            IrType::Void => IrType::Void,
            IrType::Array(length, element) => IrType::Array(*length, copier.new_type(*element)),
            IrType::Struct(packed, fields) => {
                IrType::Struct(*packed, moved_list(alloc, copier, fields)?)
            }
            IrType::Named(id) => IrType::Named(copier.new_struct(*id)),
        })
    }
}

impl Moved for StructBody {
    ghost moved_by = { moved_struct_body };

    fn moved(&self, alloc: Global, copier: &Copier) -> Result<StructBody, AllocError> {
        Ok(match self {
            StructBody::Opaque => StructBody::Opaque,
            StructBody::Plain(fields) => StructBody::Plain(moved_list(alloc, copier, fields)?),
            StructBody::Packed(fields) => StructBody::Packed(moved_list(alloc, copier, fields)?),
        })
    }
}

impl Moved for AliasType {
    ghost moved_by = { moved_alias_type };

    fn moved(&self, alloc: Global, copier: &Copier) -> Result<AliasType, AllocError> {
        Ok(match self {
            AliasType::Plain(ty) => AliasType::Plain(copier.new_type(*ty)),
            AliasType::Function(returns, parameters, variadic) => {
                let parameters = moved_list(alloc, copier, parameters)?;
                AliasType::Function(copier.new_type(*returns), parameters, *variadic)
            }
        })
    }
}

impl Moved for Parameter {
    ghost moved_by = { moved_parameter };

    fn moved(&self, alloc: Global, copier: &Copier) -> Result<Parameter, AllocError> {
        Ok(Parameter {
            ty: copier.new_type(self.ty),
            name: copied_name(alloc, &self.name)?,
        })
    }
}

/// A function type with new ids.
pub(crate) fn moved_signature(
    alloc: Global,
    copier: &Copier,
    signature: &Signature,
) -> Result<Signature, AllocError>
    ensures { IfOk result (λ copy. copy ≡ moved_signature copier.now signature.now) }
{
    Ok(Signature {
        returns: copier.new_type(signature.returns),
        parameters: moved_list(alloc, copier, &signature.parameters)?,
        variadic: signature.variadic,
    })
}

impl Copier {
    /// Copies the next type.
    fn copy_type(
        &mut self,
        alloc: Global,
        from: &Arena,
        into: &mut Builder,
        ty: TypeId,
    ) -> Result<(), AllocError>
        requires next { ty ≡ length self.old.types }
        requires known { ty < length from.now.table.types }
        requires copies { (structs : Bytes → Bytes) × CopiesTypes structs from.now into.old.arena self.old × AllFit structs (types.structs into.old.arena.table) from.now }
        ensures grows { OnOk result (Grows into.old.arena into.new.arena) }
        ensures one { OnOk result (length self.new.types ≡ length self.old.types + 1) }
        ensures others { OnOk result (self.new ≡ with_types self.old self.new.types) }
        ensures copies { (structs : Bytes → Bytes) → CopiesTypes structs from.now into.old.arena self.old → OnOk result (CopiesTypes structs from.now into.new.arena self.new) }
        ensures within { (structs : Bytes → Bytes) (whole : Structs) → CopiesTypes structs from.now into.old.arena self.old → AllFit structs whole from.now → AreWithin whole into.old.arena → OnOk result (AreWithin whole into.new.arena) }
    {
        let _good = from.types().type_count();
        let moved = from.types().get(ty).moved(alloc, self)?;
        let id = into.keep_type(alloc, moved)?;
        self.push_type(id)
    }

    /// Copies the types below that number, where they are not copied yet. The structs that they name stand in the new arena,
    /// though some may have no body yet: so that the body of one can be made of copied types. Only memory may be wanting.
    pub fn copy_types(
        &mut self,
        alloc: Global,
        from: &Arena,
        into: &mut Builder,
        count: u64,
    ) -> Result<(), AllocError>
        requires known { count ≤ length from.now.table.types }
        requires copies { (structs : Bytes → Bytes) × CopiesTypes structs from.now into.old.arena self.old × AllFit structs (types.structs into.old.arena.table) from.now }
        ensures grows { OnOk result (Grows into.old.arena into.new.arena) }
        ensures count { OnOk result (length self.new.types ≡ max (length self.old.types) count) }
        ensures others { OnOk result (self.new ≡ with_types self.old self.new.types) }
        ensures copies { (structs : Bytes → Bytes) → CopiesTypes structs from.now into.old.arena self.old → OnOk result (CopiesTypes structs from.now into.new.arena self.new) }
        ensures within { (structs : Bytes → Bytes) (whole : Structs) → CopiesTypes structs from.now into.old.arena self.old → AllFit structs whole from.now → AreWithin whole into.old.arena → OnOk result (AreWithin whole into.new.arena) }
    {
        'types: for number in self.type_count()..count {
            self.copy_type(alloc, from, into, TypeId::new(number))?;
        }
        Ok(())
    }

    /// The body of a struct, its fields by their new ids. Only memory may be wanting.
    pub fn copy_struct_body(
        &self,
        alloc: Global,
        body: &StructBody,
    ) -> Result<StructBody, AllocError>
        ensures ids { IfOk result (λ copy. copy ≡ moved_struct_body self.now body.now) }
        ensures is { (structs : Bytes → Bytes) (a b : Lists) → CopiesTypes structs a b self.now → types.KnowsBody (length self.now.types) (Some body.now)
            → IfOk result (λ copy. IsStructBody b copy (renamed_body structs (tree_body (trees a.table) (Some body.now)))) }
    {
        body.moved(alloc, self)
    }

    /// The parameters of a function, their types by their new ids. Only memory may be wanting.
    pub fn copy_parameters(
        &self,
        alloc: Global,
        parameters: &ParameterList,
    ) -> Result<ParameterList, AllocError>
        ensures ids { IfOk result (λ copy. copy ≡ map (moved_parameter self.now) parameters.now) }
        ensures are { (structs : Bytes → Bytes) (a b : Lists) → CopiesTypes structs a b self.now → All (λ p. p.ty < length self.now.types) parameters.now
            → IfOk result (λ copy. AreParameters b copy (map (renamed_parameter structs) (map (parameter_view (trees a.table)) parameters.now))) }
    {
        moved_list(alloc, self, parameters)
    }

    /// What an alias says of its target, the types by their new ids. Only memory may be wanting.
    pub fn copy_alias_type(&self, alloc: Global, ty: &AliasType) -> Result<AliasType, AllocError>
        ensures ids { IfOk result (λ copy. copy ≡ moved_alias_type self.now ty.now) }
        ensures is { (structs : Bytes → Bytes) (a b : Lists) → CopiesTypes structs a b self.now → All (λ id. id < length self.now.types) (alias_types ty.now)
            → IfOk result (λ copy. IsAliasType b copy (renamed_alias_type structs (alias_type_view (trees a.table) ty.now))) }
    {
        ty.moved(alloc, self)
    }
}
