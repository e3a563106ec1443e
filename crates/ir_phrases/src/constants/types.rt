//! Reads types.
ghost use Rattle.std.specs.Prelude.{◌≡◌, [], ◌∷◌, map};
ghost use Rattle.ir_terminals.specs.PhraseRows.Row.{begins};
ghost use Rattle.ir_terminals.specs.Position.{tokens_left};
ghost use Rattle.ir_terminals.specs.Role.{class};
ghost use Rattle.ir_terminals.specs.Terminal.{code, integer_type_class};
ghost use Rattle.ir_phrases.specs.Constants.Types.{type_shape, int_row, ptr_row, array_row, types_row, struct_row, packed_row, nest_row, nest_core, type_at, type_over, value_type_over, value_type_row, type_row, fields_row};
ghost use Rattle.ir_phrases.specs.Constants.View.{type_view};
ghost use Rattle.ir_terminals.specs.Follows.{Follows};

use crate::constants::ty::{ArrayType, Type};
use ir_terminals::{Cursor, Fault, Terminal};

/// Whether an integer type is next.
fn is_integer_type_next(cursor: &Cursor) -> bool
    ensures { result ≡ begins class (integer_type_class ∷ []) (tokens_left cursor.now) }
{
    matches!(cursor.terminal(), Some(Terminal::IntegerType(_)))
}

/// Whether `ptr` is next.
fn is_pointer_next(cursor: &Cursor) -> bool
    ensures { result ≡ begins class (code Terminal.Ptr ∷ []) (tokens_left cursor.now) }
{
    matches!(cursor.terminal(), Some(Terminal::Ptr))
}

/// `iN`
fn integer_type(cursor: &mut Cursor) -> Result<Type, Fault>
    ensures { Follows (λ _. int_row) type_view cursor.old result cursor.new }
{
    let Some(Terminal::IntegerType(width)) = cursor.terminal() else {
        return Err(Fault::Refused);
    };
    let place = cursor.take_class(Terminal::IntegerType(width))?;
    Ok(Type::Integer(place, width))
}

/// `ptr`
fn pointer_type(cursor: &mut Cursor) -> Result<Type, Fault>
    ensures { Follows (λ _. ptr_row) type_view cursor.old result cursor.new }
{
    Ok(Type::Ptr(cursor.take_class(Terminal::Ptr)?))
}

/// `[ INT x TYPE ]`
#[cycle(types)]
fn array(cursor: &mut Cursor, depth: u8) -> Result<Type, Fault>
    ensures { Follows (λ limits. array_row (type_at limits depth)) type_view cursor.old result cursor.new }
{
    let place = cursor.take_class(Terminal::OpenBracket)?;
    let count = cursor.integer()?;
    cursor.take_class(Terminal::X)?;
    let element = type_at(cursor, depth)?;
    cursor.take_class(Terminal::CloseBracket)?;
    let array = Box::new(cursor.alloc(), ArrayType { count, element })?;
    Ok(Type::Array(place, array))
}

/// `TYPE,*`
#[cycle(types)]
#[tactic(auto, unfolding(crate::specs::Constants::Types::types_core))]
fn fields(cursor: &mut Cursor, depth: u8) -> Result<Vec<Type>, Fault>
    ensures { Follows (λ limits. types_row (type_at limits depth)) (λ fields. map type_view fields.items) cursor.old result cursor.new }
{
    if !begins_type(cursor) {
        return Ok(Vec::new(cursor.alloc()));
    }
    let first = type_at(cursor, depth)?;
    let mut fields = Vec::with_capacity(cursor.alloc(), 1)?;
    fields.push(first)?;
    'fields: while cursor.is_class_next(Terminal::Comma) {
        cursor.take_class(Terminal::Comma)?;
        fields.push(type_at(cursor, depth)?)?;
    }
    fields.shrink_to_fit();
    Ok(fields)
}

/// `{ TYPE,* }`
#[cycle(types)]
fn structure(cursor: &mut Cursor, depth: u8) -> Result<Type, Fault>
    ensures { Follows (λ limits. struct_row (type_at limits depth)) type_view cursor.old result cursor.new }
{
    let place = cursor.take_class(Terminal::OpenBrace)?;
    let fields = fields(cursor, depth)?;
    cursor.take_class(Terminal::CloseBrace)?;
    let fields = Box::new(cursor.alloc(), fields)?;
    Ok(Type::Struct(place, false, fields))
}

/// `<{ TYPE,* }>`
#[cycle(types)]
fn packed(cursor: &mut Cursor, depth: u8) -> Result<Type, Fault>
    ensures { Follows (λ limits. packed_row (type_at limits depth)) type_view cursor.old result cursor.new }
{
    let place = cursor.take_class(Terminal::Less)?;
    cursor.take_class(Terminal::OpenBrace)?;
    let fields = fields(cursor, depth)?;
    cursor.take_class(Terminal::CloseBrace)?;
    cursor.take_class(Terminal::Greater)?;
    let fields = Box::new(cursor.alloc(), fields)?;
    Ok(Type::Struct(place, true, fields))
}

/// A type that holds types, nested no more than so deep.
#[cycle(types)]
#[tactic(auto, using(crate::proofs::OnConstants::Depth::nest_more, crate::proofs::OnConstants::Depth::nest_end))]
fn nested(cursor: &mut Cursor, depth: u8) -> Result<Type, Fault>
    ensures { Follows (λ limits. nest_row limits depth) type_view cursor.old result cursor.new }
{
    if depth == 0 {
        return Err(Fault::Refused);
    }
    if cursor.is_class_next(Terminal::OpenBracket) {
        array(cursor, depth - 1)
    } else if cursor.is_class_next(Terminal::OpenBrace) {
        structure(cursor, depth - 1)
    } else {
        packed(cursor, depth - 1)
    }
}

/// `TYPE` but `void`, nested no more than so deep.
#[cycle(types)]
#[inline(always)]
#[tactic(auto, unfolding(crate::specs::Constants::Types::value_type_core))]
fn value_type_at(cursor: &mut Cursor, depth: u8) -> Result<Type, Fault>
    ensures { Follows (λ limits. value_type_over limits (nest_row limits depth)) type_view cursor.old result cursor.new }
{
    if is_integer_type_next(cursor) {
        integer_type(cursor)
    } else if is_pointer_next(cursor) {
        pointer_type(cursor)
    } else if cursor.is_class_next(Terminal::Local) {
        Ok(Type::Named(cursor.named_local()?))
    } else {
        nested(cursor, depth)
    }
}

/// `TYPE`, nested no more than so deep.
#[cycle(types)]
#[tactic(auto, unfolding(crate::specs::Constants::Types::type_core))]
fn type_at(cursor: &mut Cursor, depth: u8) -> Result<Type, Fault>
    ensures { Follows (λ limits. type_at limits depth) type_view cursor.old result cursor.new }
{
    if cursor.is_class_next(Terminal::Void) {
        Ok(Type::Void(cursor.take_class(Terminal::Void)?))
    } else {
        value_type_at(cursor, depth)
    }
}

/// Whether a type may begin here.
pub fn begins_type(cursor: &Cursor) -> bool
    ensures { result ≡ begins class type_shape.first (tokens_left cursor.now) }
{
    matches!(
        cursor.terminal(),
        Some(
            Terminal::IntegerType(_)
                | Terminal::Ptr
                | Terminal::Void
                | Terminal::Local
                | Terminal::OpenBracket
                | Terminal::OpenBrace
                | Terminal::Less
        )
    )
}

/// `TYPE`: a type, nested no deeper than the cursor's limits allow. Nearly all are `iN` or `ptr`, so that these are read
/// where a type is asked for, and pay nothing for those that hold others.
#[inline(always)]
#[tactic(auto, using(crate::proofs::OnConstants::Leaves::integer_type_first, crate::proofs::OnConstants::Leaves::ptr_first))]
pub fn type_of(cursor: &mut Cursor) -> Result<Type, Fault>
    ensures { Follows type_row type_view cursor.old result cursor.new }
{
    if is_integer_type_next(cursor) {
        integer_type(cursor)
    } else if is_pointer_next(cursor) {
        pointer_type(cursor)
    } else {
        type_at(cursor, cursor.limits().nesting)
    }
}

/// `TYPE`, behind a box.
pub fn boxed_type_of(cursor: &mut Cursor) -> Result<Box<Type>, Fault>
    ensures { Follows type_row (λ boxed. type_view boxed.value) cursor.old result cursor.new }
{
    let ty = type_of(cursor)?;
    Ok(Box::new(cursor.alloc(), ty)?)
}

/// `TYPE` but `void`: a type, nested no deeper than the cursor's limits allow.
pub fn value_type_of(cursor: &mut Cursor) -> Result<Type, Fault>
    ensures { Follows value_type_row type_view cursor.old result cursor.new }
{
    value_type_at(cursor, cursor.limits().nesting)
}

/// `TYPE,*`: the fields of a struct whose own braces are the outermost.
#[tactic(auto, using(crate::proofs::OnConstants::Depth::fields_more, crate::proofs::OnConstants::Depth::fields_end))]
pub fn fields_of(cursor: &mut Cursor) -> Result<Vec<Type>, Fault>
    ensures { Follows fields_row (λ fields. map type_view fields.items) cursor.old result cursor.new }
{
    let nesting = cursor.limits().nesting;
    if nesting == 0 {
        return Err(Fault::Refused);
    }
    fields(cursor, nesting - 1)
}
