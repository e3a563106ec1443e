//! Reads metadata, which is dropped.
ghost use Rattle.ir_phrases.specs.Instructions.Dropped.{attachment_row, attachments_row};
ghost use Rattle.ir_terminals.specs.Follows.{Follows};

use ir_terminals::{Cursor, Fault, Terminal};

/// `MNAME MNUMBER`, or `MNAME ! { .. }`.
pub fn attachment(cursor: &mut Cursor) -> Result<(), Fault>
    ensures { Follows (λ _. attachment_row) (λ x. x) cursor.old result cursor.new }
{
    cursor.take_class(Terminal::MetaName)?;
    if cursor.is_class_next(Terminal::MetaNumber) {
        cursor.take_class(Terminal::MetaNumber)?;
        return Ok(());
    }
    cursor.take_class(Terminal::MetaMark)?;
    cursor.skip_brackets(Terminal::OpenBrace)
}

/// `(, MD)*`
#[tactic(auto, unfolding(crate::specs::Instructions::Dropped::attachments_core))]
pub fn attachments(cursor: &mut Cursor) -> Result<(), Fault>
    ensures { Follows (λ _. attachments_row) (λ x. x) cursor.old result cursor.new }
{
    'attachments: while cursor.is_class_next(Terminal::Comma) {
        cursor.take_class(Terminal::Comma)?;
        attachment(cursor)?;
    }
    Ok(())
}
