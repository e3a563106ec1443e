//! Reads parts that instructions share.
ghost use Rattle.std.specs.Prelude.{◌≡◌, map};
ghost use Rattle.ir_terminals.specs.PhraseRows.Row.{keep_first};
ghost use Rattle.ir_phrases.specs.Constants.View.{type_view, value_view, typed_value_view};
ghost use Rattle.ir_phrases.specs.Instructions.Dropped.{attachments_row};
ghost use Rattle.ir_phrases.specs.Instructions.Operations.{next_value_row, next_typed_value_row, operands_row, cast_type_row, arms_row, address_row, from_block_row, incoming_row, operand_list_row, indices_row};
ghost use Rattle.ir_phrases.specs.Instructions.View.{incoming_view, operands_view};
ghost use Rattle.ir_terminals.specs.Follows.{Follows};

use crate::constants::{Type, TypedValue, WrittenValue, type_of, typed_value_of, value_of};
use crate::instructions::boxed::{boxed, refused};
use crate::instructions::listed::more_parts;
use crate::instructions::metadata::attachments;
use crate::instructions::operation::{Operands, WrittenIncoming};
use crate::instructions::tails::alignment;
use ir_terminals::{Cursor, Fault, Integer, Local, Terminal};

/// `, VALUE`
#[tactic(auto, unfolding(crate::specs::Instructions::Operations::next_value_core))]
fn next_value(cursor: &mut Cursor) -> Result<WrittenValue, Fault>
    ensures { Follows next_value_row value_view cursor.old result cursor.new }
{
    cursor.take_class(Terminal::Comma)?;
    value_of(cursor)
}

/// `, TYPE VALUE`
#[inline(always)]
#[tactic(auto, unfolding(crate::specs::Instructions::Operations::next_typed_value_core))]
pub fn next_typed_value(cursor: &mut Cursor) -> Result<TypedValue, Fault>
    ensures { Follows next_typed_value_row typed_value_view cursor.old result cursor.new }
{
    cursor.take_class(Terminal::Comma)?;
    typed_value_of(cursor)
}

/// `, VALUE (, MD)*`
fn last_value(cursor: &mut Cursor) -> Result<WrittenValue, Fault>
    ensures { Follows (λ limits. keep_first (next_value_row limits) attachments_row) value_view cursor.old result cursor.new }
{
    let value = next_value(cursor)?;
    match attachments(cursor) {
        Ok(()) => Ok(value),
        Err(fault) => Err(refused(value, fault)),
    }
}

/// `TYPE VALUE , VALUE (, MD)*`
#[tactic(auto, unfolding(crate::specs::Instructions::Operations::operands_core))]
pub fn operands(cursor: &mut Cursor) -> Result<Box<Operands>, Fault>
    ensures { Follows operands_row (λ x. operands_view x.value) cursor.old result cursor.new }
{
    let left = typed_value_of(cursor)?;
    match last_value(cursor) {
        Ok(right) => Ok(boxed(cursor.alloc(), Operands { left, right })?),
        Err(fault) => Err(refused(left, fault)),
    }
}

/// `to TYPE (, MD)*`
#[tactic(auto, unfolding(crate::specs::Instructions::Operations::cast_type_core))]
pub fn cast_type(cursor: &mut Cursor) -> Result<Type, Fault>
    ensures { Follows cast_type_row type_view cursor.old result cursor.new }
{
    cursor.take_class(Terminal::To)?;
    let to = type_of(cursor)?;
    attachments(cursor)?;
    Ok(to)
}

/// `, TYPE VALUE (, MD)*`
fn last_typed_value(cursor: &mut Cursor) -> Result<TypedValue, Fault>
    ensures { Follows (λ limits. keep_first (next_typed_value_row limits) attachments_row) typed_value_view cursor.old result cursor.new }
{
    let value = next_typed_value(cursor)?;
    match attachments(cursor) {
        Ok(()) => Ok(value),
        Err(fault) => Err(refused(value, fault)),
    }
}

/// `, TYPE VALUE , TYPE VALUE (, MD)*`. It is called, so that two values are moved as a whole where they are joined.
#[inline(never)]
#[tactic(auto, unfolding(crate::specs::Instructions::Operations::arms_core))]
pub fn arms(cursor: &mut Cursor) -> Result<(TypedValue, TypedValue), Fault>
    ensures { Follows arms_row (λ x. (typed_value_view x.0, typed_value_view x.1)) cursor.old result cursor.new }
{
    let first = next_typed_value(cursor)?;
    match last_typed_value(cursor) {
        Ok(second) => Ok((first, second)),
        Err(fault) => Err(refused(first, fault)),
    }
}

/// `, TYPE VALUE (, align INT)? (, MD)*`
#[inline(always)]
#[tactic(auto, unfolding(crate::specs::Instructions::Operations::address_core))]
pub fn address(cursor: &mut Cursor) -> Result<(TypedValue, Option<Integer>), Fault>
    ensures { Follows address_row (λ x. (typed_value_view x.0, x.1)) cursor.old result cursor.new }
{
    let address = next_typed_value(cursor)?;
    match alignment(cursor) {
        Ok(alignment) => Ok((address, alignment)),
        Err(fault) => Err(refused(address, fault)),
    }
}

/// `, LOCAL ]`
#[tactic(auto, unfolding(crate::specs::Instructions::Operations::from_block_core))]
fn from_block(cursor: &mut Cursor) -> Result<Local, Fault>
    ensures { Follows (λ _. from_block_row) (λ x. x) cursor.old result cursor.new }
{
    cursor.take_class(Terminal::Comma)?;
    let block = cursor.local()?;
    cursor.take_class(Terminal::CloseBracket)?;
    Ok(block)
}

/// `[ VALUE , LOCAL ]`
#[tactic(auto, unfolding(crate::specs::Instructions::Operations::incoming_core))]
pub fn incoming(cursor: &mut Cursor) -> Result<WrittenIncoming, Fault>
    ensures { Follows incoming_row incoming_view cursor.old result cursor.new }
{
    cursor.take_class(Terminal::OpenBracket)?;
    let value = value_of(cursor)?;
    let block = from_block(cursor)?;
    Ok(WrittenIncoming { value, block })
}

/// `, TYPE VALUE (, TYPE VALUE)* (, MD)*`
#[tactic(auto, unfolding(crate::specs::Instructions::Operations::operand_list_core))]
pub fn operand_list(cursor: &mut Cursor) -> Result<Vec<TypedValue>, Fault>
    ensures { Follows operand_list_row (λ x. map typed_value_view x.items) cursor.old result cursor.new }
{
    let first = next_typed_value(cursor)?;
    more_parts(cursor, first)
}

/// `, INT (, INT)* (, MD)*`
#[tactic(auto, unfolding(crate::specs::Instructions::Operations::indices_core))]
pub fn indices(cursor: &mut Cursor) -> Result<Vec<Integer>, Fault>
    ensures { Follows (λ _. indices_row) (λ x. x.items) cursor.old result cursor.new }
{
    cursor.take_class(Terminal::Comma)?;
    let first = cursor.integer()?;
    more_parts(cursor, first)
}
