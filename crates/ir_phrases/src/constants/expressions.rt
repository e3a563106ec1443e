//! Reads constant expressions (LangRef, "Constant Expressions").
ghost use Rattle.std.specs.Prelude.{◌≡◌, map};
ghost use Rattle.ir_base.specs.declared.place.Place.{Place as ThePlace};
ghost use Rattle.ir_phrases.specs.Constants.Constants.{expression_classes, expression_row, expression_body, operands_row, element_address_row, conversion_row, arithmetic_row, typed_at};
ghost use Rattle.ir_phrases.specs.Constants.View.{constant_view, typed_constant_view};
ghost use Rattle.ir_terminals.specs.PhraseRows.Row.{among};
ghost use Rattle.ir_phrases.specs.Constants.Placed.{token_with_place};
ghost use Rattle.ir_terminals.specs.Terminal.{code};
ghost use Rattle.ir_terminals.specs.Values.{opcode_in};
ghost use Rattle.ir_terminals.specs.Follows.{Follows};

use crate::constants::constant::{Constant, TypedConstant};
use crate::constants::constants::typed_at;
use crate::constants::flags::flags_of;
use crate::constants::types::{boxed_type_of, type_of};
use ir_base::Place;
use ir_tables::Opcode;
use ir_terminals::{Cursor, Fault, Terminal};

/// Whether a constant expression has this opcode.
fn is_of_expression(opcode: Opcode) -> bool
    ensures { result ≡ among (code (Terminal.Opcode opcode)) expression_classes }
{
    matches!(
        opcode,
        Opcode::GetElementPtr
            | Opcode::PtrToInt
            | Opcode::IntToPtr
            | Opcode::Trunc
            | Opcode::Add
            | Opcode::Sub
            | Opcode::Xor
    )
}

/// The opcode of a constant expression, and its place.
fn expression_opcode(cursor: &mut Cursor) -> Result<(Opcode, Place), Fault>
    ensures { Follows (λ _. token_with_place expression_classes opcode_in) (λ x. x) cursor.old result cursor.new }
{
    let Some(Terminal::Opcode(opcode)) = cursor.terminal() else {
        return Err(Fault::Refused);
    };
    if !is_of_expression(opcode) {
        return Err(Fault::Refused);
    }
    let place = cursor.take_class(Terminal::Opcode(opcode))?;
    Ok((opcode, place))
}

/// `TYPE CONST (, TYPE CONST)*`
#[cycle(constants)]
#[tactic(auto, unfolding(crate::specs::Constants::Constants::operands_core))]
fn operands(cursor: &mut Cursor, depth: u8) -> Result<Vec<TypedConstant>, Fault>
    ensures { Follows (λ limits. operands_row (typed_at limits depth)) (λ operands. map typed_constant_view operands.items) cursor.old result cursor.new }
{
    let mut operands = Vec::new(cursor.alloc());
    operands.push(typed_at(cursor, depth)?)?;
    'operands: while cursor.is_class_next(Terminal::Comma) {
        cursor.take_class(Terminal::Comma)?;
        operands.push(typed_at(cursor, depth)?)?;
    }
    operands.shrink_to_fit();
    Ok(operands)
}

/// `FLAG* ( TYPE , TYPE CONST (, TYPE CONST)* )`, behind `getelementptr`.
#[cycle(constants)]
fn element_address(cursor: &mut Cursor, depth: u8, place: Place) -> Result<Constant, Fault>
    ensures { Follows (λ limits. element_address_row limits (typed_at limits depth) place) constant_view cursor.old result cursor.new }
{
    let flags = flags_of(cursor, Opcode::GetElementPtr)?;
    cursor.take_class(Terminal::OpenParenthesis)?;
    let source = boxed_type_of(cursor)?;
    cursor.take_class(Terminal::Comma)?;
    let operands = operands(cursor, depth)?;
    cursor.take_class(Terminal::CloseParenthesis)?;
    let operands = Box::new(cursor.alloc(), operands)?;
    Ok(Constant::GetElementPtr(place, flags, source, operands))
}

/// `( TYPE CONST to TYPE )`, behind `ptrtoint`, `inttoptr` or `trunc`.
#[cycle(constants)]
fn conversion(
    cursor: &mut Cursor,
    depth: u8,
    place: Place,
    opcode: Opcode,
) -> Result<Constant, Fault>
    ensures { Follows (λ limits. conversion_row limits (typed_at limits depth) place opcode) constant_view cursor.old result cursor.new }
{
    cursor.take_class(Terminal::OpenParenthesis)?;
    let operand = typed_at(cursor, depth)?;
    cursor.take_class(Terminal::To)?;
    let to = type_of(cursor)?;
    cursor.take_class(Terminal::CloseParenthesis)?;
    let operand = Box::new(cursor.alloc(), operand)?;
    let to = Box::new(cursor.alloc(), to)?;
    Ok(Constant::Cast(place, opcode, operand, to))
}

/// `FLAG* ( TYPE CONST , TYPE CONST )`, behind `add`, `sub` or `xor`.
#[cycle(constants)]
fn arithmetic(
    cursor: &mut Cursor,
    depth: u8,
    place: Place,
    opcode: Opcode,
) -> Result<Constant, Fault>
    ensures { Follows (λ limits. arithmetic_row (typed_at limits depth) place opcode) constant_view cursor.old result cursor.new }
{
    let flags = flags_of(cursor, opcode)?;
    cursor.take_class(Terminal::OpenParenthesis)?;
    let left = typed_at(cursor, depth)?;
    cursor.take_class(Terminal::Comma)?;
    let right = typed_at(cursor, depth)?;
    cursor.take_class(Terminal::CloseParenthesis)?;
    let left = Box::new(cursor.alloc(), left)?;
    let right = Box::new(cursor.alloc(), right)?;
    Ok(Constant::Binary(place, opcode, flags, left, right))
}

/// What follows the opcode of a constant expression.
#[cycle(constants)]
#[tactic(auto, unfolding(crate::specs::Constants::Constants::expression_core))]
fn expression_behind(
    cursor: &mut Cursor,
    depth: u8,
    opcode: Opcode,
    place: Place,
) -> Result<Constant, Fault>
    ensures { Follows (λ limits. expression_body limits (typed_at limits depth) (opcode, place)) constant_view cursor.old result cursor.new }
{
    match opcode {
        Opcode::GetElementPtr => element_address(cursor, depth, place),
        Opcode::PtrToInt | Opcode::IntToPtr | Opcode::Trunc => {
            conversion(cursor, depth, place, opcode)
        }
        Opcode::Add | Opcode::Sub | Opcode::Xor => arithmetic(cursor, depth, place, opcode),
        _ => Err(Fault::Refused),
    }
}

/// A constant expression, whose operands are nested no more than so deep.
#[cycle(constants)]
pub fn expression(cursor: &mut Cursor, depth: u8) -> Result<Constant, Fault>
    ensures { Follows (λ limits. expression_row limits (typed_at limits depth)) constant_view cursor.old result cursor.new }
{
    let (opcode, place) = expression_opcode(cursor)?;
    expression_behind(cursor, depth, opcode, place)
}
