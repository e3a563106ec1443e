//! Reads all items.
ghost use Rattle.std.specs.Prelude.{◌≡◌, map};
ghost use Rattle.ir_terminals.specs.PhraseRows.Row.{begins, keep_second};
ghost use Rattle.ir_syntax.specs.Answers.{Answers, is_end};
ghost use Rattle.ir_syntax.specs.Items.{source_row, target_row, attributes_row, metadata_name_row, node_row, metadata_item_row, item_shape, item_row, items_row};
ghost use Rattle.ir_syntax.specs.View.{item_view, items_view};
ghost use Rattle.ir_terminals.specs.Follows.{Follows};
ghost use Rattle.ir_terminals.specs.Position.{tokens_left};
ghost use Rattle.ir_terminals.specs.Role.{class};
ghost use Rattle.ir_terminals.specs.Tokens.{word};
ghost use Rattle.ir_terminals.specs.declared.terminal.Terminal.TheVariants as terminal;

use crate::aliases::global;
use crate::functions::{declaration, definition};
use crate::item::Item;
use crate::variables::structure;
use ir_base::Place;
use ir_terminals::{Cursor, Fault, Terminal};

/// `source_filename = STRING`
fn source(cursor: &mut Cursor) -> Result<Item, Fault>
    ensures { Follows (λ _. source_row) item_view cursor.old result cursor.new }
{
    let place = cursor.take_class(Terminal::SourceFilename)?;
    cursor.take_class(Terminal::Equals)?;
    let text = cursor.quoted()?;
    Ok(Item::SourceFilename { place, text })
}

/// `datalayout = STRING`, or `triple = STRING`, behind `target`.
fn target_behind(cursor: &mut Cursor) -> Result<Item, Fault>
    ensures { Follows (λ _. target_row) item_view cursor.old result cursor.new }
{
    if cursor.is_class_next(Terminal::DataLayout) {
        let place = cursor.take_class(Terminal::DataLayout)?;
        cursor.take_class(Terminal::Equals)?;
        let text = cursor.quoted()?;
        return Ok(Item::DataLayout { place, text });
    }
    let place = cursor.take_class(Terminal::Triple)?;
    cursor.take_class(Terminal::Equals)?;
    let text = cursor.quoted()?;
    Ok(Item::TargetTriple { place, text })
}

/// `target datalayout = STRING`, or `target triple = STRING`.
fn target(cursor: &mut Cursor) -> Result<Item, Fault>
    ensures { Follows (λ _. keep_second (word terminal.Target) target_row) item_view cursor.old result cursor.new }
{
    cursor.take_class(Terminal::Target)?;
    target_behind(cursor)
}

/// `attributes GROUP = { .. }`
fn attributes(cursor: &mut Cursor) -> Result<Item, Fault>
    ensures { Follows (λ _. attributes_row) item_view cursor.old result cursor.new }
{
    let place = cursor.take_class(Terminal::Attributes)?;
    cursor.take_class(Terminal::Group)?;
    cursor.take_class(Terminal::Equals)?;
    cursor.skip_braced()?;
    Ok(Item::Attributes(place))
}

/// `META`
fn metadata_name(cursor: &mut Cursor) -> Result<Place, Fault>
    ensures { Follows (λ _. metadata_name_row) (λ x. x) cursor.old result cursor.new }
{
    if cursor.is_class_next(Terminal::MetaName) {
        cursor.take_class(Terminal::MetaName)
    } else {
        cursor.take_class(Terminal::MetaNumber)
    }
}

/// `! { .. }`, or `MNAME ( .. )`.
fn node(cursor: &mut Cursor) -> Result<(), Fault>
    ensures { Follows (λ _. node_row) (λ x. x) cursor.old result cursor.new }
{
    if cursor.is_class_next(Terminal::MetaMark) {
        cursor.take_class(Terminal::MetaMark)?;
        return cursor.skip_brackets(Terminal::OpenBrace);
    }
    cursor.take_class(Terminal::MetaName)?;
    cursor.skip_brackets(Terminal::OpenParenthesis)
}

/// `META = distinct? ! { .. }`, or `META = distinct? MNAME ( .. )`.
fn metadata_item(cursor: &mut Cursor) -> Result<Item, Fault>
    ensures { Follows (λ _. metadata_item_row) item_view cursor.old result cursor.new }
{
    let place = metadata_name(cursor)?;
    cursor.take_class(Terminal::Equals)?;
    if cursor.is_class_next(Terminal::Distinct) {
        cursor.take_class(Terminal::Distinct)?;
    }
    node(cursor)?;
    Ok(Item::Metadata(place))
}

/// An item.
#[tactic(auto, unfolding(crate::specs::Items::item_core))]
fn item(cursor: &mut Cursor) -> Result<Item, Fault>
    ensures { Follows item_row item_view cursor.old result cursor.new }
{
    if cursor.is_class_next(Terminal::SourceFilename) {
        source(cursor)
    } else if cursor.is_class_next(Terminal::Target) {
        target(cursor)
    } else if cursor.is_class_next(Terminal::Local) {
        structure(cursor)
    } else if cursor.is_class_next(Terminal::GlobalName) {
        global(cursor)
    } else if cursor.is_class_next(Terminal::Declare) {
        declaration(cursor)
    } else if cursor.is_class_next(Terminal::Define) {
        definition(cursor)
    } else if cursor.is_class_next(Terminal::Attributes) {
        attributes(cursor)
    } else {
        metadata_item(cursor)
    }
}

/// Whether an item is next.
fn is_item_next(cursor: &Cursor) -> bool
    ensures { result ≡ begins class item_shape.first (tokens_left cursor.now) }
{
    matches!(
        cursor.terminal(),
        Some(
            Terminal::SourceFilename
                | Terminal::Target
                | Terminal::Local
                | Terminal::GlobalName
                | Terminal::Declare
                | Terminal::Define
                | Terminal::Attributes
                | Terminal::MetaName
                | Terminal::MetaNumber
        )
    )
}

/// Any number of items.
fn items(cursor: &mut Cursor) -> Result<Vec<Item>, Fault>
    ensures { Follows items_row (λ x. items_view x.items) cursor.old result cursor.new }
{
    let mut items = Vec::new(cursor.alloc());
    'items: while is_item_next(cursor) {
        items.push(item(cursor)?)?;
    }
    items.shrink_to_fit();
    Ok(items)
}

/// Whether the text ends where the cursor stands.
fn is_at_end(cursor: &Cursor) -> bool
    ensures { result ≡ is_end cursor.now (tokens_left cursor.now) }
{
    cursor.terminal().is_none() && !cursor.is_bad()
}

/// All of the text as items, where the cursor stands at its first token.
pub fn all_items(cursor: &mut Cursor) -> Result<Vec<Item>, Fault>
    requires { cursor.old.taken ≡ 0 }
    ensures { Answers (λ x. items_view x.items) cursor.old.limits cursor.old.text result cursor.new }
{
    match items(cursor) {
        Ok(items) => {
            if is_at_end(cursor) {
                Ok(items)
            } else {
                Err(Fault::Refused)
            }
        }
        Err(fault) => Err(fault),
    }
}
