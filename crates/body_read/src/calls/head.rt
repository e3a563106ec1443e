//! The front of a call: what it returns, and what its result is called.
ghost use Rattle.std.specs.Prelude.{◌≡◌, ◌<◌, length, IfOk, IfSome};
ghost use Rattle.module_arena.specs.TypeTests.{is_void as is_void_tree};
ghost use Rattle.record_read.specs.Fields.{texts_of};
ghost use Rattle.type_read.specs.Arena.Kept.{tree_at};
ghost use Rattle.body_read.specs.Calls.Calls.{ReadsReturned, NamesResult};

use module_arena::LocalName;
use record_read::{Texts, read_label};
use std::alloc::AllocError;
use type_read::arena::ModuleReader;
use type_table::{IrType, TypeId, TypeTable};

/// The type that a call returns. Where no type has that index, which breaks rule 2, it is not known what follows.
pub(crate) fn read_returned(m: &mut ModuleReader<'_>) -> Option<TypeId>
    ensures { ReadsReturned m.old m.new result }
{
    let count = m.growing.type_count();
    let number = m.reader.number();
    if number < count {
        return Some(TypeId::new(number));
    }
    m.reader.stop(2);
    m.reader.stops_where_broken();
    None
}

/// Whether nothing is returned. No type stands for `void`.
pub(crate) fn is_void(types: &TypeTable, ty: Option<TypeId>) -> bool
    requires { IfSome ty (λ ty. ty < length types.now.types) }
    ensures { result ≡ is_void_tree (tree_at types.now ty) }
{
    let _good = types.type_count();
    match ty {
        Some(ty) => matches!(types.get(ty), IrType::Void),
        None => true,
    }
}

/// What the result of a call is called, where it has one. None also where a rule is broken.
pub(crate) fn read_result(
    m: &mut ModuleReader<'_>,
    texts: &Texts,
    own: u32,
    is_void: bool,
) -> Result<Option<LocalName>, AllocError>
    ensures { IfOk result (NamesResult (texts_of texts.now) own is_void m.old m.new) }
{
    if is_void {
        return Ok(None);
    }
    read_label(&mut m.reader, m.alloc, texts, own)
}
