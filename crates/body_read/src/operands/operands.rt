//! Values behind their types.
ghost use Rattle.std.specs.Prelude.{◌≡◌, ◌++◌, None, Some, IfOk, OnOk, option_to_list, if◌then◌else◌};
ghost use Rattle.std.specs.Option.{option_map};
ghost use Rattle.record_table.specs.Layout.{counted, option};
ghost use Rattle.record_table.specs.Lines.{typed_value};
ghost use Rattle.record_read.specs.Reader.{is_broken};
ghost use Rattle.type_read.specs.Arena.Kept.{IsKnownType, tree_at};
ghost use Rattle.body_read.specs.Operands.Found.{Finds, HasOperand, HasOperands, HasRoom, both, kept_operand, operand_at, operand_in, operands_in, room_in};

use crate::constants::same;
use crate::operands::value::read_value;
use ir_base::ItemList;
use module_arena::{Operand, OperandList, Value};
use record_read::RecordReader;
use std::alloc::AllocError;
use type_read::arena::{ModuleReader, read_type};
use type_table::TypeId;

/// An operand of a type and a value, where both are known.
fn operand_of(ty: Option<TypeId>, value: Option<Value>) -> Option<Operand>
    ensures { result ≡ option_map kept_operand (both ty value) }
{
    Some(Operand {
        ty: ty?,
        value: value?,
    })
}

/// A value of that type, as an operand. No type stands for `void`. None only where a rule is broken. It is refused for want of
/// memory alone.
pub fn read_operand_of(
    m: &mut ModuleReader<'_>,
    ty: &Option<TypeId>,
) -> Result<Option<Operand>, AllocError>
    requires { IsKnownType m.old ty.now }
    ensures { IfOk result (Finds HasOperand operand_in (λ k. operand_at k (tree_at m.old.growing.arena.table ty.now)) m.old m.new) }
{
    let value = read_value(m, ty)?;
    Ok(operand_of(same(ty), value))
}

/// A type, and a value of it. None only where a rule is broken. It is refused for want of memory alone.
pub fn read_operand(m: &mut ModuleReader<'_>) -> Result<Option<Operand>, AllocError>
    ensures { IfOk result (Finds HasOperand operand_in (λ k. (typed_value k).read) m.old m.new) }
{
    let ty = read_type(m);
    read_operand_of(m, &ty)
}

/// An operand that is written, where it is known.
fn written(operand: Option<Operand>) -> Option<Option<Operand>>
    ensures { result ≡ option_map (λ o. Some o) operand }
{
    Some(Some(operand?))
}

/// 0 where no operand is written, or 1 and one with its type. Another number breaks rule 3. None only where a rule is broken.
/// It is refused for want of memory alone.
pub fn read_optional_operand(
    m: &mut ModuleReader<'_>,
) -> Result<Option<Option<Operand>>, AllocError>
    ensures { IfOk result (Finds HasRoom room_in (λ k. (option (typed_value k)).read) m.old m.new) }
{
    match m.reader.number() {
        0 => Ok(Some(None)),
        1 => {
            let operand = read_operand(m)?;
            Ok(written(operand))
        }
        _ => {
            m.reader.stop(3);
            m.reader.stops_where_broken();
            Ok(None)
        }
    }
}

/// One more operand, where it is known.
fn push_operand(operands: &mut Vec<Operand>, operand: Option<Operand>) -> Result<(), AllocError>
    ensures { OnOk result (operands.new.items ≡ operands.old.items ++ option_to_list operand) }
{
    // Part by part: a function that pushes the whole is beyond the checker.
    match operand {
        Some(Operand { ty, value }) => {
            operands.push(Operand { ty, value })?;
            Ok(())
        }
        None => Ok(()),
    }
}

/// One more operand, of that type and value, where both are known. It is refused for want of memory alone.
pub fn add_operand(
    operands: &mut Vec<Operand>,
    ty: Option<TypeId>,
    value: Option<Value>,
) -> Result<(), AllocError>
    ensures { OnOk result (operands.new.items ≡ operands.old.items ++ option_to_list (option_map kept_operand (both ty value))) }
{
    push_operand(operands, operand_of(ty, value))
}

/// The operands, where the record breaks no rule so far.
pub fn operand_list(reader: &RecordReader<'_>, operands: Vec<Operand>) -> Option<OperandList>
    ensures { result ≡ (if is_broken reader.now.walk then None else Some operands.items) }
{
    if reader.is_broken() {
        None
    } else {
        Some(ItemList::from_vec(operands))
    }
}

/// A count, and so many operands with their types. None only where a rule is broken. It is refused for want of memory alone.
pub fn read_operands(m: &mut ModuleReader<'_>) -> Result<Option<OperandList>, AllocError>
    ensures { IfOk result (Finds HasOperands operands_in (λ k. (counted (typed_value k)).read) m.old m.new) }
{
    let count = m.reader.number();
    let mut operands = Vec::new(m.alloc);
    let mut place = 0;
    'operands: while m.reader.has_more(place, count) {
        let ty = read_type(m);
        let value = read_value(m, &ty)?;
        add_operand(&mut operands, ty, value)?;
        place += 1;
    }
    Ok(operand_list(&m.reader, operands))
}
