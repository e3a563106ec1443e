//! Values of a type that is known.
ghost use Rattle.std.specs.Prelude.{◌≡◌, IfOk};
ghost use Rattle.std.specs.Option.{option_map};
ghost use Rattle.module_arena.specs.declared.instruction.Value.TheVariants as kept;
ghost use Rattle.record_table.specs.Constants as constants;
ghost use Rattle.type_read.specs.Arena.Kept.{IsKnownType, tree_at};
ghost use Rattle.body_read.specs.Operands.Found.{Finds, HasValue, value_in};

use crate::constants::{NESTING_LIMIT, read_coded, same};
use module_arena::{ConstId, Value, ValueId};
use std::alloc::AllocError;
use type_read::arena::{ModuleReader, read_local};
use type_table::TypeId;

/// A parameter or result as a value, where it is known.
fn local_value(id: Option<ValueId>) -> Option<Value>
    ensures { result ≡ option_map (λ id. kept.Local id) id }
{
    Some(Value::Local(id?))
}

/// A constant as a value, where it is known.
fn known_value(id: Option<ConstId>) -> Option<Value>
    ensures { result ≡ option_map (λ id. kept.Known id) id }
{
    Some(Value::Known(id?))
}

/// A value of that type: 0 and the index of a parameter or result, or a constant. No type stands for `void`. None only where
/// a rule is broken. It is refused for want of memory alone.
pub fn read_value(
    m: &mut ModuleReader<'_>,
    ty: &Option<TypeId>,
) -> Result<Option<Value>, AllocError>
    requires { IsKnownType m.old ty.now }
    ensures { IfOk result (Finds HasValue value_in (λ k. (constants.value k (tree_at m.old.growing.arena.table ty.now)).read) m.old m.new) }
{
    let code = m.reader.number();
    if code == 0 {
        let id = read_local(m);
        return Ok(local_value(id));
    }
    let id = read_coded(m, code, same(ty), NESTING_LIMIT)?;
    Ok(known_value(id))
}
