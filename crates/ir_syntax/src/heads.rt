//! Reads what stands before the type of a variable, an alias or a function.
ghost use Rattle.std.specs.Prelude.{◌≡◌};
ghost use Rattle.ir_terminals.specs.PhraseRows.Row.{begins};
ghost use Rattle.ir_syntax.specs.Heads.{optional_linkage_row, global_word_shape, global_word_row, global_words_row, global_head_row};
ghost use Rattle.ir_syntax.specs.View.{global_view};
ghost use Rattle.ir_terminals.specs.Follows.{Follows};
ghost use Rattle.ir_terminals.specs.Position.{tokens_left};
ghost use Rattle.ir_terminals.specs.Role.{class};

use ir_tables::Linkage;
use ir_terminals::{Cursor, Fault, PlacedName, Terminal};

/// `LINKAGE?`
pub fn optional_linkage(cursor: &mut Cursor) -> Result<Option<Linkage>, Fault>
    ensures { Follows (λ _. optional_linkage_row) (λ x. x) cursor.old result cursor.new }
{
    if !cursor.is_class_next(Terminal::Linkage(Linkage::External)) {
        return Ok(None);
    }
    let linkage = cursor.linkage()?;
    Ok(Some(linkage))
}

/// Whether a word that is dropped before `global`, `constant` or a function's type is next.
fn is_global_word_next(cursor: &Cursor) -> bool
    ensures { result ≡ begins class global_word_shape.first (tokens_left cursor.now) }
{
    matches!(
        cursor.terminal(),
        Some(Terminal::GlobalDropped | Terminal::UnnamedAddress)
    )
}

/// One such word.
fn global_word(cursor: &mut Cursor) -> Result<(), Fault>
    ensures { Follows (λ _. global_word_row) (λ x. x) cursor.old result cursor.new }
{
    if cursor.is_class_next(Terminal::GlobalDropped) {
        cursor.take_class(Terminal::GlobalDropped)?;
    } else {
        cursor.take_class(Terminal::UnnamedAddress)?;
    }
    Ok(())
}

/// `GDROP*`
pub fn global_words(cursor: &mut Cursor) -> Result<(), Fault>
    ensures { Follows (λ _. global_words_row) (λ x. x) cursor.old result cursor.new }
{
    'words: while is_global_word_next(cursor) {
        global_word(cursor)?;
    }
    Ok(())
}

/// What a variable or an alias is called, and its linkage where that is written.
#[derive(Drop)]
pub struct GlobalHead {
    pub name: PlacedName,
    pub linkage: Option<Linkage>,
}

/// `GLOBAL = LINKAGE? GDROP*`
#[tactic(auto, unfolding(crate::specs::Heads::global_head_core))]
pub fn global_head(cursor: &mut Cursor) -> Result<GlobalHead, Fault>
    ensures { Follows (λ _. global_head_row) global_view cursor.old result cursor.new }
{
    let name = cursor.global_name()?;
    cursor.take_class(Terminal::Equals)?;
    let linkage = optional_linkage(cursor)?;
    global_words(cursor)?;
    Ok(GlobalHead { name, linkage })
}
