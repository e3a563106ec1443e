//! The arguments of a call.
ghost use Rattle.std.specs.Prelude.{◌≡◌, All, map, slice_get, IfOk, IfSome};
ghost use Rattle.std.specs.Option.{option_map};
ghost use Rattle.record_table.specs.Lines as lines;
ghost use Rattle.type_read.specs.Arena.Kept.{IsKnownType, tree_at};
ghost use Rattle.body_read.specs.Operands.Found.{Finds, HasOperands, operands_in};
ghost use Rattle.body_read.specs.Calls.Calls.{TypesArgument};

use crate::constants::same;
use crate::operands::{add_operand, operand_list, read_value};
use module_arena::OperandList;
use std::alloc::AllocError;
use type_read::arena::{ModuleReader, read_type};
use type_table::TypeId;

/// The parameter at that place, if there is one.
fn parameter_at(parameters: &[Option<TypeId>], place: u64) -> Option<Option<TypeId>>
    ensures { result ≡ slice_get parameters.now place }
{
    if place < parameters.len() as u64 {
        Some(same(&parameters[place as usize]))
    } else {
        None
    }
}

/// The type of an argument: that of its parameter, or one that stands in front of it.
fn argument_type(m: &mut ModuleReader<'_>, parameter: Option<Option<TypeId>>) -> Option<TypeId>
    requires { IfSome parameter (IsKnownType m.old) }
    ensures { TypesArgument (option_map (tree_at m.old.growing.arena.table) parameter) m.old m.new result }
{
    match parameter {
        Some(ty) => ty,
        None => read_type(m),
    }
}

/// A count, and so many arguments: those for the parameters, and further ones behind their types. None only where a rule is
/// broken.
pub(crate) fn read_arguments(
    m: &mut ModuleReader<'_>,
    parameters: &[Option<TypeId>],
) -> Result<Option<OperandList>, AllocError>
    requires { All (IsKnownType m.old) parameters.now }
    ensures { IfOk result (Finds HasOperands operands_in (λ k. (lines.arguments k (map (tree_at m.old.growing.arena.table) parameters.now)).read) m.old m.new) }
{
    let count = m.reader.number();
    let mut arguments = Vec::new(m.alloc);
    let mut place = 0;
    'arguments: while m.reader.has_more(place, count) {
        let ty = argument_type(m, parameter_at(parameters, place));
        let value = read_value(m, &ty)?;
        add_operand(&mut arguments, ty, value)?;
        place += 1;
    }
    Ok(operand_list(&m.reader, arguments))
}
