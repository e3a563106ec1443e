//! Reads alignments and counts behind commas at the end of an instruction.
ghost use Rattle.ir_phrases.specs.Instructions.Tails.{alignment_behind_row, alignment_row, count_behind_row, count_row};
ghost use Rattle.ir_phrases.specs.Instructions.View.{count_view};
ghost use Rattle.ir_terminals.specs.Follows.{Follows};

use crate::constants::{TypedValue, begins_type, typed_value_of};
use crate::instructions::boxed::boxed;
use crate::instructions::metadata::{attachment, attachments};
use ir_terminals::{Cursor, Fault, Integer, Terminal};

/// `align INT (, MD)*`, or `MD (, MD)*`.
fn alignment_behind(cursor: &mut Cursor) -> Result<Option<Integer>, Fault>
    ensures { Follows (λ _. alignment_behind_row) (λ x. x) cursor.old result cursor.new }
{
    if cursor.is_class_next(Terminal::Align) {
        cursor.take_class(Terminal::Align)?;
        let alignment = cursor.integer()?;
        attachments(cursor)?;
        return Ok(Some(alignment));
    }
    attachment(cursor)?;
    attachments(cursor)?;
    Ok(None)
}

/// `(, align INT)? (, MD)*`
#[tactic(auto, unfolding(crate::specs::Instructions::Tails::alignment_core))]
pub fn alignment(cursor: &mut Cursor) -> Result<Option<Integer>, Fault>
    ensures { Follows (λ _. alignment_row) (λ x. x) cursor.old result cursor.new }
{
    if !cursor.is_class_next(Terminal::Comma) {
        return Ok(None);
    }
    cursor.take_class(Terminal::Comma)?;
    alignment_behind(cursor)
}

/// The count and the alignment of an alloca, where they are written.
pub type CountAndAlignment = (Option<Box<TypedValue>>, Option<Integer>);

/// `TYPE VALUE (, align INT)? (, MD)*`, or `align INT (, MD)*`, or `MD (, MD)*`.
fn count_behind(cursor: &mut Cursor) -> Result<CountAndAlignment, Fault>
    ensures { Follows count_behind_row count_view cursor.old result cursor.new }
{
    if begins_type(cursor) {
        let count = typed_value_of(cursor)?;
        let alignment = alignment(cursor)?;
        let count = Some(boxed(cursor.alloc(), count)?);
        return Ok((count, alignment));
    }
    let alignment = alignment_behind(cursor)?;
    Ok((None, alignment))
}

/// `(, TYPE VALUE)? (, align INT)? (, MD)*`
#[tactic(auto, unfolding(crate::specs::Instructions::Tails::count_core))]
pub fn count(cursor: &mut Cursor) -> Result<CountAndAlignment, Fault>
    ensures { Follows count_row count_view cursor.old result cursor.new }
{
    if !cursor.is_class_next(Terminal::Comma) {
        return Ok((None, None));
    }
    cursor.take_class(Terminal::Comma)?;
    count_behind(cursor)
}
