//! The types of variables; of appending ones that are declared arrays of no elements.
ghost use Rattle.std.specs.Prelude.{◌≡◌, ◌<◌, length, IfOk, OnOk};
ghost use Rattle.extract_rules.specs.Extracted.{without_elements};
ghost use Rattle.module_arena.specs.View.{type_at};
ghost use Rattle.type_table.specs.Types.{trees};
ghost use Rattle.item_build.specs.Types.Stands.{IsType, Grows};
ghost use Rattle.extract_core.specs.Fates.Fates.{type_as};
ghost use Rattle.extract_core.specs.Declaring.Emptied.{element_of};
ghost use Rattle.extract_core.specs.Declaring.Stages.{HasTypes};

use entry_copy::Copier;
use item_build::types::Builder;
use module_arena::Arena;
use std::alloc::{AllocError, Global};
use type_table::{IrType, TypeId};

/// The type of the elements, where the type is an array.
fn element_of(ty: &IrType) -> Option<TypeId>
    ensures { result ≡ element_of ty.now }
{
    match ty {
        IrType::Array(_, element) => Some(*element),
        _ => None,
    }
}

/// The new id of an array of the same elements, but of none. A type that is no array stays.
fn empty_array(
    copier: &Copier,
    alloc: Global,
    from: &Arena,
    into: &mut Builder,
    ty: TypeId,
) -> Result<TypeId, AllocError>
    requires known { ty < length from.now.table.types }
    requires types { HasTypes from.now into.old.arena copier.now }
    ensures grows { OnOk result (Grows into.old.arena into.new.arena) }
    ensures is { IfOk result (λ id. IsType into.new.arena id (without_elements (type_at (trees from.now.table) ty))) }
{
    let _good = from.types().type_count();
    match element_of(from.types().get(ty)) {
        Some(element) => {
            let id = into.keep_type(alloc, IrType::Array(0, copier.new_type(element)))?;
            Ok(id)
        }
        None => Ok(copier.new_type(ty)),
    }
}

/// The new id of the type of a variable, which may be emptied.
pub(crate) fn variable_type(
    copier: &Copier,
    alloc: Global,
    from: &Arena,
    into: &mut Builder,
    ty: TypeId,
    emptied: bool,
) -> Result<TypeId, AllocError>
    requires known { ty < length from.now.table.types }
    requires types { HasTypes from.now into.old.arena copier.now }
    ensures grows { OnOk result (Grows into.old.arena into.new.arena) }
    ensures is { IfOk result (λ id. IsType into.new.arena id (type_as emptied (type_at (trees from.now.table) ty))) }
{
    if emptied {
        let id = empty_array(copier, alloc, from, into, ty)?;
        Ok(id)
    } else {
        Ok(copier.new_type(ty))
    }
}
