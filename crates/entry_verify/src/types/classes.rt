//! Which types are written alike.
ghost use Rattle.std.specs.Prelude.{◌≡◌, map, slice_index_or, IfOk};
ghost use Rattle.entry_verify.specs.Types.Classes.{AreClasses, key_of};

use indexmap::IndexSet;
use ir_base::ItemList;
use std::alloc::{AllocError, Global};
use type_table::{IrType, TypeId, TypeList, TypeTable};

/// The class of a type.
pub(crate) fn class_at(classes: &[TypeId], ty: TypeId) -> TypeId
    ensures { result ≡ slice_index_or classes.now ty 0 }
{
    classes
        .get(ty.number() as usize)
        .copied()
        .unwrap_or(TypeId::new(0))
}

/// The classes of some types.
fn classes_at(alloc: Global, classes: &[TypeId], parts: &TypeList) -> Result<TypeList, AllocError>
    ensures { IfOk result (λ list. list ≡ map (λ part. slice_index_or classes.now part 0) parts.now) }
{
    let list: Vec<TypeId> = parts
        .as_slice()
        .iter()
        .map(|part| class_at(classes, *part))
        .collect(alloc)?;
    Ok(ItemList::from_vec(list))
}

/// The type with the classes of its parts in their places.
fn key_of(alloc: Global, classes: &[TypeId], ty: &IrType) -> Result<IrType, AllocError>
    ensures { IfOk result (λ key. key ≡ key_of classes.now ty.now) }
{
    match ty {
        IrType::Int(width) => Ok(IrType::Int(*width)),
        IrType::Ptr => Ok(IrType::Ptr),
        IrType::Void => Ok(IrType::Void),
        IrType::Array(length, element) => {
            Ok(IrType::Array(*length, class_at(classes, *element)))
        }
        IrType::Struct(packed, fields) => {
            let parts = classes_at(alloc, classes, fields)?;
            Ok(IrType::Struct(*packed, parts))
        }
        IrType::Named(id) => Ok(IrType::Named(*id)),
    }
}

/// The classes of the types of a table: two types have one class exactly where they are written alike.
pub(crate) fn classes_of(alloc: Global, types: &TypeTable) -> Result<Vec<TypeId>, AllocError>
    ensures { IfOk result (λ classes. AreClasses types.now classes.items) }
{
    let mut keys = IndexSet::new(alloc);
    let mut classes = Vec::new(alloc);
    for number in 0..types.type_count() {
        let key = key_of(alloc, &classes, types.get(TypeId::new(number)))?;
        let (class, _is_new) = keys.insert_full(key)?;
        classes.push(TypeId::new(class as u64))?;
    }
    Ok(classes)
}
