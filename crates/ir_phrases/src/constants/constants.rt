//! Reads constants.
ghost use Rattle.std.specs.Prelude.{◌≡◌, [], ◌∷◌, map};
ghost use Rattle.ir_terminals.specs.PhraseRows.Row.{begins};
ghost use Rattle.ir_phrases.specs.Constants.Constants.{simple_classes, simple_word, simple_row, integer_constant_row, elements_row, array_constant_row, struct_constant_row, packed_constant_row, holder_row, constant_at, typed_at, constant_row, typed_constant_row};
ghost use Rattle.ir_phrases.specs.Constants.View.{constant_view, typed_constant_view};
ghost use Rattle.ir_terminals.specs.Position.{tokens_left};
ghost use Rattle.ir_terminals.specs.Role.{class};
ghost use Rattle.ir_terminals.specs.Terminal.{code};
ghost use Rattle.ir_terminals.specs.Follows.{Follows};

use crate::constants::constant::{Brackets, Constant, Simple, TypedConstant};
use crate::constants::expressions::expression;
use crate::constants::types::{begins_type, type_of};
use ir_terminals::{Cursor, Fault, Integer, Terminal};

/// The constant that a word is by itself.
fn simple_word(terminal: Terminal) -> Option<Simple>
    ensures { result ≡ simple_word terminal }
{
    match terminal {
        Terminal::True => Some(Simple::True),
        Terminal::False => Some(Simple::False),
        Terminal::Null => Some(Simple::Null),
        Terminal::Undef => Some(Simple::Undef),
        Terminal::Poison => Some(Simple::Poison),
        Terminal::ZeroInitializer => Some(Simple::ZeroInitializer),
        _ => None,
    }
}

/// Whether an integer is next.
pub fn is_integer_next(cursor: &Cursor) -> bool
    ensures { result ≡ begins class (code Terminal.Integer ∷ []) (tokens_left cursor.now) }
{
    matches!(cursor.terminal(), Some(Terminal::Integer))
}

/// Whether a constant that is one word is next.
fn is_simple_next(cursor: &Cursor) -> bool
    ensures { result ≡ begins class simple_classes (tokens_left cursor.now) }
{
    matches!(
        cursor.terminal(),
        Some(
            Terminal::True
                | Terminal::False
                | Terminal::Null
                | Terminal::Undef
                | Terminal::Poison
                | Terminal::ZeroInitializer
        )
    )
}

/// `true`, `false`, `null`, `undef`, `poison` or `zeroinitializer`.
fn simple_constant(cursor: &mut Cursor) -> Result<Constant, Fault>
    ensures { Follows (λ _. simple_row) constant_view cursor.old result cursor.new }
{
    let Some(terminal) = cursor.terminal() else {
        return Err(Fault::Refused);
    };
    let Some(simple) = simple_word(terminal) else {
        return Err(Fault::Refused);
    };
    let place = cursor.take_class(terminal)?;
    Ok(Constant::Simple(simple, place))
}

/// `INT`: an integer that is a constant.
pub fn integer_constant(cursor: &mut Cursor) -> Result<Constant, Fault>
    ensures { Follows (λ _. integer_constant_row) constant_view cursor.old result cursor.new }
{
    let Integer {
        negative,
        magnitude,
        place,
    } = cursor.integer()?;
    Ok(Constant::Integer(negative, place, magnitude))
}

/// `TYPE CONST`, the constant nested no more than so deep.
#[cycle(constants)]
#[tactic(auto, unfolding(crate::specs::Constants::Constants::typed_core))]
pub fn typed_at(cursor: &mut Cursor, depth: u8) -> Result<TypedConstant, Fault>
    ensures { Follows (λ limits. typed_at limits depth) typed_constant_view cursor.old result cursor.new }
{
    let ty = type_of(cursor)?;
    let value = constant_at(cursor, depth)?;
    Ok(TypedConstant { ty, value })
}

/// `(TYPE CONST),*`
#[cycle(constants)]
#[tactic(auto, unfolding(crate::specs::Constants::Constants::elements_core))]
fn elements(cursor: &mut Cursor, depth: u8) -> Result<Vec<TypedConstant>, Fault>
    ensures { Follows (λ limits. elements_row (typed_at limits depth)) (λ elements. map typed_constant_view elements.items) cursor.old result cursor.new }
{
    if !begins_type(cursor) {
        return Ok(Vec::new(cursor.alloc()));
    }
    let first = typed_at(cursor, depth)?;
    let mut elements = Vec::with_capacity(cursor.alloc(), 1)?;
    elements.push(first)?;
    'elements: while cursor.is_class_next(Terminal::Comma) {
        cursor.take_class(Terminal::Comma)?;
        elements.push(typed_at(cursor, depth)?)?;
    }
    elements.shrink_to_fit();
    Ok(elements)
}

/// `[ (TYPE CONST),* ]`
#[cycle(constants)]
fn square(cursor: &mut Cursor, depth: u8) -> Result<Constant, Fault>
    ensures { Follows (λ limits. array_constant_row (typed_at limits depth)) constant_view cursor.old result cursor.new }
{
    let place = cursor.take_class(Terminal::OpenBracket)?;
    let elements = elements(cursor, depth)?;
    cursor.take_class(Terminal::CloseBracket)?;
    let elements = Box::new(cursor.alloc(), elements)?;
    Ok(Constant::List(place, Brackets::Square, elements))
}

/// `{ (TYPE CONST),* }`
#[cycle(constants)]
fn braces(cursor: &mut Cursor, depth: u8) -> Result<Constant, Fault>
    ensures { Follows (λ limits. struct_constant_row (typed_at limits depth)) constant_view cursor.old result cursor.new }
{
    let place = cursor.take_class(Terminal::OpenBrace)?;
    let elements = elements(cursor, depth)?;
    cursor.take_class(Terminal::CloseBrace)?;
    let elements = Box::new(cursor.alloc(), elements)?;
    Ok(Constant::List(place, Brackets::Braces, elements))
}

/// `<{ (TYPE CONST),* }>`
#[cycle(constants)]
fn packed(cursor: &mut Cursor, depth: u8) -> Result<Constant, Fault>
    ensures { Follows (λ limits. packed_constant_row (typed_at limits depth)) constant_view cursor.old result cursor.new }
{
    let place = cursor.take_class(Terminal::Less)?;
    cursor.take_class(Terminal::OpenBrace)?;
    let elements = elements(cursor, depth)?;
    cursor.take_class(Terminal::CloseBrace)?;
    cursor.take_class(Terminal::Greater)?;
    let elements = Box::new(cursor.alloc(), elements)?;
    Ok(Constant::List(place, Brackets::Packed, elements))
}

/// A constant that holds constants, nested no more than so deep. It is called, so that the others pay nothing for it.
#[cycle(constants)]
#[inline(never)]
#[tactic(auto, using(crate::proofs::OnConstants::Depth::holder_more, crate::proofs::OnConstants::Depth::holder_end))]
fn holder(cursor: &mut Cursor, depth: u8) -> Result<Constant, Fault>
    ensures { Follows (λ limits. holder_row limits depth) constant_view cursor.old result cursor.new }
{
    if depth == 0 {
        return Err(Fault::Refused);
    }
    if cursor.is_class_next(Terminal::OpenBracket) {
        square(cursor, depth - 1)
    } else if cursor.is_class_next(Terminal::OpenBrace) {
        braces(cursor, depth - 1)
    } else if cursor.is_class_next(Terminal::Less) {
        packed(cursor, depth - 1)
    } else {
        expression(cursor, depth - 1)
    }
}

/// `CONST`, nested no more than so deep.
#[cycle(constants)]
#[tactic(auto, unfolding(crate::specs::Constants::Constants::constant_core))]
fn constant_at(cursor: &mut Cursor, depth: u8) -> Result<Constant, Fault>
    ensures { Follows (λ limits. constant_at limits depth) constant_view cursor.old result cursor.new }
{
    if is_integer_next(cursor) {
        integer_constant(cursor)
    } else if cursor.is_class_next(Terminal::GlobalName) {
        Ok(Constant::Global(cursor.global_name()?))
    } else if cursor.is_class_next(Terminal::ByteString) {
        Ok(Constant::Bytes(cursor.byte_string()?))
    } else if is_simple_next(cursor) {
        simple_constant(cursor)
    } else {
        holder(cursor, depth)
    }
}

/// `CONST`: a constant, nested no deeper than the cursor's limits allow.
pub fn constant_of(cursor: &mut Cursor) -> Result<Constant, Fault>
    ensures { Follows constant_row constant_view cursor.old result cursor.new }
{
    constant_at(cursor, cursor.limits().nesting)
}

/// `TYPE CONST`: a type, and a constant nested no deeper than the cursor's limits allow.
pub fn typed_constant_of(cursor: &mut Cursor) -> Result<TypedConstant, Fault>
    ensures { Follows typed_constant_row typed_constant_view cursor.old result cursor.new }
{
    typed_at(cursor, cursor.limits().nesting)
}
