//! Constants, with those that they hold.
ghost use Rattle.std.specs.Prelude.{Some, IfOk};
ghost use Rattle.record_table.specs.Constants as constants;
ghost use Rattle.record_table.specs.Fields.{Numbering};
ghost use Rattle.type_read.specs.Arena.Growing.{IsConstant};
ghost use Rattle.type_read.specs.Arena.Numbered.{Numbers};
ghost use Rattle.type_read.specs.Arena.Kept.{HasConstant, IsKnownType, IsRead, IsThere, Keeps, tree_at};
ghost use Rattle.body_read.specs.Constants.Made.{AreIndices, HasAll, HasTyped, inner_of, nested_form, typed_behind};

use crate::constants::made::{
    NestedForm, keep_address, keep_cast, keep_pair, same, stopped, typed,
};
use ir_base::ItemList;
use ir_tables::Opcode;
use module_arena::{Const, ConstId, TypedConst, TypedConstList};
use record_read::{push_known, read_flags, unbroken};
use record_table::ConstantForm;
use std::alloc::AllocError;
use type_read::arena::{
    ModuleReader, brackets_of, has_parts, is_pointer, part_at, read_address, read_binary_opcode,
    read_cast_opcode, read_integer, read_null, read_string, read_type,
};
use type_table::TypeId;

/// How deep lists and expressions nest in a constant: as deep as types do, in a nest of their own.
pub const NESTING_LIMIT: u32 = type_table::NESTING_LIMIT as u32;

/// A list of constants, each of the type of its part.
#[cycle(constants)]
fn read_list(
    m: &mut ModuleReader<'_>,
    ty: Option<TypeId>,
    depth: u32,
) -> Result<Option<ConstId>, AllocError>
    requires { IsKnownType m.old ty }
    ensures keeps { IfOk result (Keeps HasConstant m.old m.new) }
    ensures reads { (k : Numbering) → Numbers m.old k → IfOk result (IsRead k IsConstant (constants.listed k (constants.read_nested k depth) (tree_at m.old.growing.arena.table ty) m.old.reader.walk) m.old m.new) }
{
    let count = m.reader.number();
    let fits = has_parts(m.growing.table(), same(&ty), count);
    m.reader.ask(6, fits);
    m.reader.stops_where_broken();
    let mut parts = Vec::new(m.alloc);
    let mut place = 0;
    'parts: while m.reader.has_more(place, count) {
        let part = part_at(m.growing.table(), same(&ty), place);
        let value = read_constant(m, same(&part), depth)?;
        let kept = typed(part, value);
        push_known(&mut parts, kept)?;
        place += 1;
    }
    let brackets = brackets_of(m.growing.table(), ty);
    m.keep_unbroken(Const::Aggregate(brackets, ItemList::from_vec(parts)))
}

/// A count, and so many constants, each behind its type: the indices behind the base of an address. None only where a rule is
/// broken.
#[cycle(constants)]
fn read_indices(
    m: &mut ModuleReader<'_>,
    base: Option<TypedConst>,
    depth: u32,
) -> Result<Option<TypedConstList>, AllocError>
    requires { IsThere (HasTyped m.old.growing.arena) base m.old.reader.walk }
    ensures keeps { IfOk result (Keeps HasAll m.old m.new) }
    ensures reads { (k : Numbering) → Numbers m.old k → IfOk result (IsRead k (AreIndices base) (typed_behind k depth m.old.reader.walk) m.old m.new) }
{
    let count = m.reader.number();
    let mut operands = Vec::new(m.alloc);
    push_known(&mut operands, base)?;
    let mut place = 0;
    'indices: while m.reader.has_more(place, count) {
        let index_type = read_type(m);
        let index = read_constant(m, same(&index_type), depth)?;
        let kept = typed(index_type, index);
        push_known(&mut operands, kept)?;
        place += 1;
    }
    Ok(unbroken(&m.reader, operands))
}

/// A `getelementptr`: flags, source type, base, and indices with their types. It stands at `ptr`, and so does its base.
#[cycle(constants)]
fn read_element(
    m: &mut ModuleReader<'_>,
    ty: Option<TypeId>,
    depth: u32,
) -> Result<Option<ConstId>, AllocError>
    requires { IsKnownType m.old ty }
    ensures keeps { IfOk result (Keeps HasConstant m.old m.new) }
    ensures reads { (k : Numbering) → Numbers m.old k → IfOk result (IsRead k IsConstant (constants.element k (constants.read_nested k depth) (tree_at m.old.growing.arena.table ty) m.old.reader.walk) m.old m.new) }
{
    let fits = is_pointer(m.growing.table(), ty);
    m.reader.ask(6, fits);
    let flags = read_flags(&mut m.reader, Opcode::GetElementPtr);
    let source = read_type(m);
    let pointer = m.growing.pointer();
    let base_value = read_constant(m, Some(pointer), depth)?;
    let base = typed(Some(pointer), base_value);
    let operands = read_indices(m, base, depth)?;
    keep_address(m, flags, source, operands)
}

/// A cast to that type: opcode, type, and constant.
#[cycle(constants)]
fn read_converted(
    m: &mut ModuleReader<'_>,
    ty: Option<TypeId>,
    depth: u32,
) -> Result<Option<ConstId>, AllocError>
    requires { IsKnownType m.old ty }
    ensures keeps { IfOk result (Keeps HasConstant m.old m.new) }
    ensures reads { (k : Numbering) → Numbers m.old k → IfOk result (IsRead k IsConstant (constants.converted k (constants.read_nested k depth) (tree_at m.old.growing.arena.table ty) m.old.reader.walk) m.old m.new) }
{
    let opcode = read_cast_opcode(&mut m.reader);
    let from = read_type(m);
    let value = read_constant(m, same(&from), depth)?;
    let part = typed(from, value);
    keep_cast(m, opcode, part, ty)
}

/// A binary constant of that type: opcode, flags, and both operands.
#[cycle(constants)]
fn read_computed(
    m: &mut ModuleReader<'_>,
    ty: Option<TypeId>,
    depth: u32,
) -> Result<Option<ConstId>, AllocError>
    requires { IsKnownType m.old ty }
    ensures keeps { IfOk result (Keeps HasConstant m.old m.new) }
    ensures reads { (k : Numbering) → Numbers m.old k → IfOk result (IsRead k IsConstant (constants.computed k (constants.read_nested k depth) (tree_at m.old.growing.arena.table ty) m.old.reader.walk) m.old m.new) }
{
    let opcode = read_binary_opcode(&mut m.reader);
    let flags = read_flags(&mut m.reader, opcode);
    let left_value = read_constant(m, same(&ty), depth)?;
    let right_value = read_constant(m, same(&ty), depth)?;
    let left = typed(same(&ty), left_value);
    let right = typed(ty, right_value);
    keep_pair(m, opcode, flags, left, right)
}

/// A list or an expression, in which constants may nest so deep: at 0 there is no room for it, which rule 7 says.
#[cycle(constants)]
fn read_nested(
    m: &mut ModuleReader<'_>,
    form: NestedForm,
    ty: Option<TypeId>,
    depth: u32,
) -> Result<Option<ConstId>, AllocError>
    requires { IsKnownType m.old ty }
    ensures keeps { IfOk result (Keeps HasConstant m.old m.new) }
    ensures reads { (k : Numbering) → Numbers m.old k → IfOk result (IsRead k IsConstant (constants.of_form k (inner_of k depth) (Some (nested_form form)) (tree_at m.old.growing.arena.table ty) m.old.reader.walk) m.old m.new) }
{
    if depth == 0 {
        return Ok(stopped(m, 7));
    }
    match form {
        NestedForm::List => read_list(m, ty, depth - 1),
        NestedForm::Address => read_element(m, ty, depth - 1),
        NestedForm::Cast => read_converted(m, ty, depth - 1),
        NestedForm::Pair => read_computed(m, ty, depth - 1),
    }
}

/// A constant of that type behind the code of its form, in which lists and expressions may nest so deep. No type stands for
/// `void`. Another code breaks rule 3. None only where a rule is broken. It is refused for want of memory alone.
#[cycle(constants)]
pub fn read_coded(
    m: &mut ModuleReader<'_>,
    code: u64,
    ty: Option<TypeId>,
    depth: u32,
) -> Result<Option<ConstId>, AllocError>
    requires { IsKnownType m.old ty }
    ensures keeps { IfOk result (Keeps HasConstant m.old m.new) }
    ensures reads { (k : Numbering) → Numbers m.old k → IfOk result (IsRead k IsConstant (constants.by_code k (inner_of k depth) code (tree_at m.old.growing.arena.table ty) m.old.reader.walk) m.old m.new) }
{
    match ConstantForm::of_code(code) {
        None => Ok(stopped(m, 3)),
        Some(ConstantForm::Number) => read_integer(m, ty),
        Some(ConstantForm::Null) => read_null(m, ty),
        Some(ConstantForm::Undef) => m.keep_unbroken(Const::Undef),
        Some(ConstantForm::Poison) => m.keep_unbroken(Const::Poison),
        Some(ConstantForm::Zero) => m.keep_unbroken(Const::ZeroInitializer),
        Some(ConstantForm::Global) => read_address(m, ty),
        Some(ConstantForm::Bytewise) => read_string(m, ty),
        Some(ConstantForm::Listed) => read_nested(m, NestedForm::List, ty, depth),
        Some(ConstantForm::Element) => read_nested(m, NestedForm::Address, ty, depth),
        Some(ConstantForm::Converted) => read_nested(m, NestedForm::Cast, ty, depth),
        Some(ConstantForm::Computed) => read_nested(m, NestedForm::Pair, ty, depth),
    }
}

/// A constant of that type, in which lists and expressions may nest so deep. No type stands for `void`. None only where a
/// rule is broken. It is refused for want of memory alone.
#[cycle(constants)]
pub fn read_constant(
    m: &mut ModuleReader<'_>,
    ty: Option<TypeId>,
    depth: u32,
) -> Result<Option<ConstId>, AllocError>
    requires { IsKnownType m.old ty }
    ensures keeps { IfOk result (Keeps HasConstant m.old m.new) }
    ensures reads { (k : Numbering) → Numbers m.old k → IfOk result (IsRead k IsConstant (constants.read_nested k depth (tree_at m.old.growing.arena.table ty) m.old.reader.walk) m.old m.new) }
{
    let code = m.reader.number();
    read_coded(m, code, ty, depth)
}
