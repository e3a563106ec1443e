//! Reads attributes and calling conventions, which are dropped.
ghost use Rattle.std.specs.Prelude.{◌≡◌};
ghost use Rattle.ir_terminals.specs.PhraseRows.Row.{begins};
ghost use Rattle.ir_phrases.specs.Instructions.Dropped.{parameter_attribute_shape, parameter_attribute_row, parameter_attributes_row, parameter_alignment_row, function_attribute_shape, function_attribute_row, function_attributes_row, function_word_classes, function_word_row, function_string_row, function_alignment_row, section_row, function_list_row, unwind_table_row, convention_row};
ghost use Rattle.ir_terminals.specs.Follows.{Follows};
ghost use Rattle.ir_terminals.specs.Position.{tokens_left};
ghost use Rattle.ir_terminals.specs.Role.{class};

use ir_terminals::{Cursor, Fault, Terminal};

/// `align INT`, or `align ( INT )`.
fn parameter_alignment(cursor: &mut Cursor) -> Result<(), Fault>
    ensures { Follows (λ _. parameter_alignment_row) (λ x. x) cursor.old result cursor.new }
{
    cursor.take_class(Terminal::Align)?;
    if cursor.is_class_next(Terminal::Integer) {
        cursor.take_class(Terminal::Integer)?;
        return Ok(());
    }
    cursor.take_class(Terminal::OpenParenthesis)?;
    cursor.take_class(Terminal::Integer)?;
    cursor.take_class(Terminal::CloseParenthesis)?;
    Ok(())
}

/// Whether something that is dropped at a parameter is next.
fn is_parameter_attribute_next(cursor: &Cursor) -> bool
    ensures { result ≡ begins class parameter_attribute_shape.first (tokens_left cursor.now) }
{
    matches!(
        cursor.terminal(),
        Some(
            Terminal::ParameterDropped
                | Terminal::AttributeDropped
                | Terminal::Align
                | Terminal::ParameterDroppedList
        )
    )
}

/// `PDROP`
fn parameter_attribute(cursor: &mut Cursor) -> Result<(), Fault>
    ensures { Follows (λ _. parameter_attribute_row) (λ x. x) cursor.old result cursor.new }
{
    match cursor.terminal() {
        Some(word @ (Terminal::ParameterDropped | Terminal::AttributeDropped)) => {
            cursor.take_class(word)?;
            Ok(())
        }
        Some(Terminal::Align) => parameter_alignment(cursor),
        _ => {
            cursor.take_class(Terminal::ParameterDroppedList)?;
            cursor.skip_brackets(Terminal::OpenParenthesis)
        }
    }
}

/// `PDROP*`: what is dropped at a parameter, an argument or a result.
#[tactic(auto, unfolding(crate::specs::Instructions::Dropped::parameter_attributes_core))]
pub fn parameter_attributes(cursor: &mut Cursor) -> Result<(), Fault>
    ensures { Follows (λ _. parameter_attributes_row) (λ x. x) cursor.old result cursor.new }
{
    'attributes: while is_parameter_attribute_next(cursor) {
        parameter_attribute(cursor)?;
    }
    Ok(())
}

/// `STRING (= STRING)?`
fn function_string(cursor: &mut Cursor) -> Result<(), Fault>
    ensures { Follows (λ _. function_string_row) (λ x. x) cursor.old result cursor.new }
{
    cursor.take_class(Terminal::Quoted)?;
    if !cursor.is_class_next(Terminal::Equals) {
        return Ok(());
    }
    cursor.take_class(Terminal::Equals)?;
    cursor.take_class(Terminal::Quoted)?;
    Ok(())
}

/// `uwtable`, which may have brackets behind it.
fn unwind_table(cursor: &mut Cursor) -> Result<(), Fault>
    ensures { Follows (λ _. unwind_table_row) (λ x. x) cursor.old result cursor.new }
{
    cursor.take_class(Terminal::UnwindTable)?;
    if !cursor.is_class_next(Terminal::OpenParenthesis) {
        return Ok(());
    }
    cursor.skip_brackets(Terminal::OpenParenthesis)
}

/// Whether something that is dropped behind a function is next.
fn is_function_attribute_next(cursor: &Cursor) -> bool
    ensures { result ≡ begins class function_attribute_shape.first (tokens_left cursor.now) }
{
    matches!(
        cursor.terminal(),
        Some(
            Terminal::UnnamedAddress
                | Terminal::Group
                | Terminal::FunctionDropped
                | Terminal::AttributeDropped
                | Terminal::Quoted
                | Terminal::Align
                | Terminal::Section
                | Terminal::FunctionDroppedList
                | Terminal::UnwindTable
        )
    )
}

/// Whether a word or a group that is dropped behind a function is next.
fn is_function_word_next(cursor: &Cursor) -> bool
    ensures { result ≡ begins class function_word_classes (tokens_left cursor.now) }
{
    matches!(
        cursor.terminal(),
        Some(
            Terminal::UnnamedAddress
                | Terminal::Group
                | Terminal::FunctionDropped
                | Terminal::AttributeDropped
        )
    )
}

/// A word or a group that is dropped behind a function.
fn function_word(cursor: &mut Cursor) -> Result<(), Fault>
    ensures { Follows (λ _. function_word_row) (λ x. x) cursor.old result cursor.new }
{
    match cursor.terminal() {
        Some(
            word @ (Terminal::UnnamedAddress
            | Terminal::Group
            | Terminal::FunctionDropped
            | Terminal::AttributeDropped),
        ) => {
            cursor.take_class(word)?;
            Ok(())
        }
        _ => Err(Fault::Refused),
    }
}

/// `align INT`
fn function_alignment(cursor: &mut Cursor) -> Result<(), Fault>
    ensures { Follows (λ _. function_alignment_row) (λ x. x) cursor.old result cursor.new }
{
    cursor.take_class(Terminal::Align)?;
    cursor.take_class(Terminal::Integer)?;
    Ok(())
}

/// `section STRING`
pub fn section(cursor: &mut Cursor) -> Result<(), Fault>
    ensures { Follows (λ _. section_row) (λ x. x) cursor.old result cursor.new }
{
    cursor.take_class(Terminal::Section)?;
    cursor.take_class(Terminal::Quoted)?;
    Ok(())
}

/// A word and what is in its brackets.
fn function_list(cursor: &mut Cursor) -> Result<(), Fault>
    ensures { Follows (λ _. function_list_row) (λ x. x) cursor.old result cursor.new }
{
    cursor.take_class(Terminal::FunctionDroppedList)?;
    cursor.skip_brackets(Terminal::OpenParenthesis)
}

/// `FDROP`
#[tactic(auto, unfolding(crate::specs::Instructions::Dropped::function_attribute_core))]
fn function_attribute(cursor: &mut Cursor) -> Result<(), Fault>
    ensures { Follows (λ _. function_attribute_row) (λ x. x) cursor.old result cursor.new }
{
    if is_function_word_next(cursor) {
        function_word(cursor)
    } else if cursor.is_class_next(Terminal::Quoted) {
        function_string(cursor)
    } else if cursor.is_class_next(Terminal::Align) {
        function_alignment(cursor)
    } else if cursor.is_class_next(Terminal::Section) {
        section(cursor)
    } else if cursor.is_class_next(Terminal::FunctionDroppedList) {
        function_list(cursor)
    } else {
        unwind_table(cursor)
    }
}

/// `FDROP*`: what is dropped behind a function or a call.
#[tactic(auto, unfolding(crate::specs::Instructions::Dropped::function_attributes_core))]
pub fn function_attributes(cursor: &mut Cursor) -> Result<(), Fault>
    ensures { Follows (λ _. function_attributes_row) (λ x. x) cursor.old result cursor.new }
{
    'attributes: while is_function_attribute_next(cursor) {
        function_attribute(cursor)?;
    }
    Ok(())
}

/// `CC?`
pub fn convention(cursor: &mut Cursor) -> Result<(), Fault>
    ensures { Follows (λ _. convention_row) (λ x. x) cursor.old result cursor.new }
{
    if cursor.is_class_next(Terminal::CallingConvention) {
        cursor.take_class(Terminal::CallingConvention)?;
    }
    Ok(())
}
