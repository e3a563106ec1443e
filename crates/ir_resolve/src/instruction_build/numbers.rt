//! Indices.
ghost use Rattle.std.specs.Prelude.{◌≡◌, map, All, IfOk};
ghost use Rattle.name_rules.specs.Written.{natural};
ghost use Rattle.item_build.specs.Buildable.Bodies.{IsShortInteger};

use ir_base::ItemList;
use ir_terminals::Integer;
use item_build::types::index_of;
use module_arena::IndexList;
use std::alloc::{AllocError, Global};

/// The indices, in order. It is refused for want of memory alone.
pub(crate) fn indices_of(alloc: Global, written: &[Integer]) -> Result<IndexList, AllocError>
    requires { All IsShortInteger written.now }
    ensures { IfOk result (λ indices. indices ≡ map natural written.now) }
{
    let mut indices = Vec::with_capacity(alloc, written.len())?;
    for integer in written {
        indices.push(index_of(integer))?;
    }
    Ok(ItemList::from_vec(indices))
}
