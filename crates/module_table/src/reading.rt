//! Texts as modules, and as checked modules.
ghost use Rattle.std.specs.Prelude.{◌≤◌, length, IfSome};
ghost use Rattle.module_arena.specs.View.{module_of};
ghost use Rattle.module_arena.specs.WellFormed.{IsWellFormed};
ghost use Rattle.module_table.specs.declared.reading.TheConstants.{LARGEST};

use ir_resolve::resolve;
use ir_syntax::read_items;
use module_arena::{Arena, Checked};
use path_verify::verify;
use std::alloc::Global;

/// The most bytes of a text: 16 MiB.
pub(crate) const LARGEST: usize = ir_syntax::LARGEST;

/// The module of a text; none where it is no module, or where memory ran out.
pub(crate) fn read_module(alloc: Global, text: &[u8]) -> Option<Arena>
    requires { length text.now ≤ LARGEST }
    ensures { IfSome result (λ arena. IsWellFormed (module_of arena)) }
{
    let items = match read_items(alloc, text) {
        Ok(items) => items,
        Err(_) => return None,
    };
    match resolve(alloc, &items) {
        Ok(arena) => Some(arena),
        Err(_) => None,
    }
}

/// The module of a text, checked; none where it is no valid module of a text of at most 16 MiB, or where memory ran out.
pub(crate) fn read_checked(alloc: Global, text: &[u8]) -> Option<Checked> {
    if text.len() > LARGEST {
        return None;
    }
    let arena = read_module(alloc, text)?;
    verify(alloc, arena).ok()
}
