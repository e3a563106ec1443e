//! Which types are `void`.
ghost use Rattle.std.specs.Prelude.{◌≡◌, ◌<◌, length, map, IfOk};
ghost use Rattle.type_table.specs.Types.{trees, tree};
ghost use Rattle.module_arena.specs.TypeTests.{is_void as is_void_tree};

use std::alloc::{AllocError, Global};
use type_table::{IrType, TypeId, TypeTable};

/// Whether the type is `void`.
fn is_void(types: &TypeTable, ty: TypeId) -> bool
    requires { ty < length types.now.types }
    ensures { result ≡ is_void_tree (tree types.now ty) }
{
    let _good = types.type_count();
    match types.get(ty) {
        IrType::Void => true,
        _ => false,
    }
}

/// For each type, whether it is `void`.
pub(crate) fn voids_of(alloc: Global, types: &TypeTable) -> Result<Vec<bool>, AllocError>
    ensures { IfOk result (λ voids. voids.items ≡ map is_void_tree (trees types.now)) }
{
    let mut voids = Vec::new(alloc);
    let count = types.type_count();
    'numbers: for number in 0..count {
        voids.push(is_void(types, TypeId::new(number)))?;
    }
    Ok(voids)
}
