//! Reads calls (LangRef, "'call' Instruction").
ghost use Rattle.std.specs.Prelude.{◌≡◌, map, option_map};
ghost use Rattle.ir_phrases.specs.Constants.View.{type_view, value_view, typed_value_view};
ghost use Rattle.ir_phrases.specs.Instructions.Calls.{some_types_row, signature_types_row, signature_row, argument_row, argument_list_row, arguments_row, result_type_row, call_end_row, called_row, call_row};
ghost use Rattle.ir_phrases.specs.Instructions.View.{signature_view, operation_view};
ghost use Rattle.ir_terminals.specs.Follows.{Follows};

use crate::constants::{Type, TypedValue, WrittenValue, begins_type, type_of, value_of};
use crate::instructions::attributes::{convention, function_attributes, parameter_attributes};
use crate::instructions::boxed::boxed;
use crate::instructions::metadata::attachments;
use crate::instructions::operation::{Operation, SignatureTypes, WrittenCall};
use crate::instructions::room::fitted;
use ir_terminals::{Cursor, Fault, Terminal};

/// `TYPE (, TYPE)* (, ...)?`
fn some_types(cursor: &mut Cursor) -> Result<SignatureTypes, Fault>
    ensures { Follows some_types_row signature_view cursor.old result cursor.new }
{
    let mut parameters = Vec::new(cursor.alloc());
    let mut variadic = false;
    parameters.push(type_of(cursor)?)?;
    'parameters: while cursor.is_class_next(Terminal::Comma) {
        if variadic {
            return Err(Fault::Refused);
        }
        cursor.take_class(Terminal::Comma)?;
        if cursor.is_class_next(Terminal::Dots) {
            cursor.take_class(Terminal::Dots)?;
            variadic = true;
        } else {
            parameters.push(type_of(cursor)?)?;
        }
    }
    parameters.shrink_to_fit();
    Ok(SignatureTypes {
        parameters,
        variadic,
    })
}

/// `TYPE,*`, which may end in `...`.
fn signature_types(cursor: &mut Cursor) -> Result<SignatureTypes, Fault>
    ensures { Follows signature_types_row signature_view cursor.old result cursor.new }
{
    if cursor.is_class_next(Terminal::Dots) {
        cursor.take_class(Terminal::Dots)?;
        return Ok(SignatureTypes {
            parameters: Vec::new(cursor.alloc()),
            variadic: true,
        });
    }
    if begins_type(cursor) {
        return some_types(cursor);
    }
    Ok(SignatureTypes {
        parameters: Vec::new(cursor.alloc()),
        variadic: false,
    })
}

/// `(( TYPE,* ))?`
#[tactic(auto, unfolding(crate::specs::Instructions::Calls::signature_core))]
pub fn signature(cursor: &mut Cursor) -> Result<Option<SignatureTypes>, Fault>
    ensures { Follows signature_row (option_map signature_view) cursor.old result cursor.new }
{
    if !cursor.is_class_next(Terminal::OpenParenthesis) {
        return Ok(None);
    }
    cursor.take_class(Terminal::OpenParenthesis)?;
    let signature = signature_types(cursor)?;
    cursor.take_class(Terminal::CloseParenthesis)?;
    Ok(Some(signature))
}

/// `TYPE PDROP* VALUE`
#[tactic(auto, unfolding(crate::specs::Instructions::Calls::argument_core))]
fn argument(cursor: &mut Cursor) -> Result<TypedValue, Fault>
    ensures { Follows argument_row typed_value_view cursor.old result cursor.new }
{
    let ty = type_of(cursor)?;
    parameter_attributes(cursor)?;
    let value = value_of(cursor)?;
    Ok(TypedValue { ty, value })
}

/// `(TYPE PDROP* VALUE),*`. There is room for two at first: few calls have more arguments.
#[tactic(auto, unfolding(crate::specs::Instructions::Calls::argument_list_core))]
fn argument_list(cursor: &mut Cursor) -> Result<Vec<TypedValue>, Fault>
    ensures { Follows argument_list_row (λ x. map typed_value_view x.items) cursor.old result cursor.new }
{
    if !begins_type(cursor) {
        return Ok(Vec::new(cursor.alloc()));
    }
    let mut arguments = Vec::with_capacity(cursor.alloc(), 2)?;
    arguments.push(argument(cursor)?)?;
    'arguments: while cursor.is_class_next(Terminal::Comma) {
        cursor.take_class(Terminal::Comma)?;
        arguments.push(argument(cursor)?)?;
    }
    Ok(fitted(arguments))
}

/// `( (TYPE PDROP* VALUE),* )`
#[tactic(auto, unfolding(crate::specs::Instructions::Calls::arguments_core))]
fn arguments(cursor: &mut Cursor) -> Result<Vec<TypedValue>, Fault>
    ensures { Follows arguments_row (λ x. map typed_value_view x.items) cursor.old result cursor.new }
{
    cursor.take_class(Terminal::OpenParenthesis)?;
    let arguments = argument_list(cursor)?;
    cursor.take_class(Terminal::CloseParenthesis)?;
    Ok(arguments)
}

/// `CC? PDROP* TYPE`
#[tactic(auto, unfolding(crate::specs::Instructions::Calls::result_type_core))]
fn result_type(cursor: &mut Cursor) -> Result<Type, Fault>
    ensures { Follows result_type_row type_view cursor.old result cursor.new }
{
    convention(cursor)?;
    parameter_attributes(cursor)?;
    type_of(cursor)
}

/// `FDROP* (, MD)*`
#[tactic(auto, unfolding(crate::specs::Instructions::Calls::call_end_core))]
fn call_end(cursor: &mut Cursor) -> Result<(), Fault>
    ensures { Follows (λ _. call_end_row) (λ x. x) cursor.old result cursor.new }
{
    function_attributes(cursor)?;
    attachments(cursor)
}

/// `VALUE ( (TYPE PDROP* VALUE),* ) FDROP* (, MD)*`
#[tactic(auto, unfolding(crate::specs::Instructions::Calls::called_core))]
fn called(cursor: &mut Cursor) -> Result<(WrittenValue, Vec<TypedValue>), Fault>
    ensures { Follows called_row (λ x. (value_view x.0, map typed_value_view x.1.items)) cursor.old result cursor.new }
{
    let callee = value_of(cursor)?;
    let arguments = arguments(cursor)?;
    call_end(cursor)?;
    Ok((callee, arguments))
}

/// `CC? PDROP* TYPE (( TYPE,* ))? VALUE ( (TYPE PDROP* VALUE),* ) FDROP* (, MD)*`, behind `call`.
#[tactic(auto, unfolding(crate::specs::Instructions::Calls::call_core))]
pub fn call(cursor: &mut Cursor) -> Result<Operation, Fault>
    ensures { Follows call_row operation_view cursor.old result cursor.new }
{
    let returns = result_type(cursor)?;
    let signature = signature(cursor)?;
    let (callee, arguments) = called(cursor)?;
    let call = WrittenCall {
        returns,
        signature,
        callee,
        arguments,
    };
    Ok(Operation::Call(boxed(cursor.alloc(), call)?))
}
