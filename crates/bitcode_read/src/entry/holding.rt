//! What a variable is set to, with what stands before it in its record.
ghost use Rattle.std.specs.Prelude.{◌≡◌, None, IfOk};
ghost use Rattle.std.specs.Option.{option_map, option_map_or};
ghost use Rattle.record_table.specs.Constants.{constant};
ghost use Rattle.record_table.specs.Layout.{option};
ghost use Rattle.record_read.specs.Fields.{texts_of};
ghost use Rattle.type_read.specs.Arena.Kept.{IsKnownType, tree_at};
ghost use Rattle.body_read.specs.Operands.Found.{Finds};
ghost use Rattle.bitcode_read.specs.Entry.Entries.{HasHeld, ReadsFields, held_in};

use crate::head::read_front_name;
use body_read::constants::{NESTING_LIMIT, read_constant};
use ir_base::Name;
use module_arena::ConstId;
use record_read::{Texts, read_alignment, read_flag, read_linkage};
use std::alloc::AllocError;
use type_read::arena::{ModuleReader, read_type};
use type_table::TypeId;

/// A constant that is written, where it is known.
fn written(constant: Option<ConstId>) -> Option<Option<ConstId>>
    ensures { result ≡ option_map (λ c. Some c) constant }
{
    Some(Some(constant?))
}

/// What a variable of that type is set to: 0 for nothing, or 1 and a constant. Another number breaks rule 3. None only where a
/// rule is broken.
fn read_initialiser(
    m: &mut ModuleReader<'_>,
    ty: Option<TypeId>,
) -> Result<Option<Option<ConstId>>, AllocError>
    requires { IsKnownType m.old ty }
    ensures { IfOk result (Finds HasHeld held_in (λ k. (option (constant k (tree_at m.old.growing.arena.table ty))).read) m.old m.new) }
{
    match m.reader.number() {
        0 => Ok(Some(None)),
        1 => {
            let constant = read_constant(m, ty, NESTING_LIMIT)?;
            Ok(written(constant))
        }
        _ => {
            m.reader.stop(3);
            m.reader.stops_where_broken();
            Ok(None)
        }
    }
}

/// What is kept of the record of a variable: its name, and what it is set to. None only where a rule is broken.
#[derive(Drop)]
pub(crate) struct VariableFields {
    pub name: Option<Name>,
    pub initialiser: Option<Option<ConstId>>,
}

/// The operands of a variable. It is refused for want of memory alone.
pub(crate) fn read_fields(
    m: &mut ModuleReader<'_>,
    texts: &Texts,
) -> Result<VariableFields, AllocError>
    ensures { IfOk result (ReadsFields (texts_of texts.now) m.old m.new) }
{
    let name = read_front_name(&mut m.reader, m.alloc, texts)?;
    let _linkage = read_linkage(&mut m.reader);
    let _constant = read_flag(&mut m.reader);
    let ty = read_type(m);
    let _alignment = read_alignment(&mut m.reader);
    let initialiser = read_initialiser(m, ty)?;
    Ok(VariableFields { name, initialiser })
}
