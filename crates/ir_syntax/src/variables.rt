//! Reads variables, and structs that have names.
ghost use Rattle.std.specs.Prelude.{option_map};
ghost use Rattle.ir_terminals.specs.PhraseRows.Row.{labelled};
ghost use Rattle.ir_phrases.specs.Constants.View.{constant_view};
ghost use Rattle.ir_syntax.specs.Variables.{plain_body_row, packed_body_row, body_row, struct_row, constant_word_row, initialiser_row, tail_row, tail_shape, tails_row, variable_rest_row, variable_row};
ghost use Rattle.ir_syntax.specs.View.{body_view, global_view, variable_rest_view, item_view};
ghost use Rattle.ir_terminals.specs.Follows.{Follows};

use crate::heads::GlobalHead;
use crate::item::{Item, WrittenBody, WrittenVariable};
use ir_phrases::constants::{Constant, constant_of, fields_of, type_of};
use ir_phrases::instructions::{attachment, section};
use ir_tables::Linkage;
use ir_terminals::{Cursor, Fault, Integer, Terminal};

/// `{ TYPE,* }`
fn plain_body(cursor: &mut Cursor) -> Result<WrittenBody, Fault>
    ensures { Follows plain_body_row body_view cursor.old result cursor.new }
{
    cursor.take_class(Terminal::OpenBrace)?;
    let fields = fields_of(cursor)?;
    cursor.take_class(Terminal::CloseBrace)?;
    Ok(WrittenBody::Plain(fields))
}

/// `<{ TYPE,* }>`
fn packed_body(cursor: &mut Cursor) -> Result<WrittenBody, Fault>
    ensures { Follows packed_body_row body_view cursor.old result cursor.new }
{
    cursor.take_class(Terminal::Less)?;
    cursor.take_class(Terminal::OpenBrace)?;
    let fields = fields_of(cursor)?;
    cursor.take_class(Terminal::CloseBrace)?;
    cursor.take_class(Terminal::Greater)?;
    Ok(WrittenBody::Packed(fields))
}

/// `opaque`, `{ TYPE,* }` or `<{ TYPE,* }>`.
fn body(cursor: &mut Cursor) -> Result<WrittenBody, Fault>
    ensures { Follows body_row body_view cursor.old result cursor.new }
{
    if cursor.is_class_next(Terminal::Opaque) {
        cursor.take_class(Terminal::Opaque)?;
        Ok(WrittenBody::Opaque)
    } else if cursor.is_class_next(Terminal::OpenBrace) {
        plain_body(cursor)
    } else {
        packed_body(cursor)
    }
}

/// `LOCAL = type opaque`, `LOCAL = type { TYPE,* }` or `LOCAL = type <{ TYPE,* }>`.
pub fn structure(cursor: &mut Cursor) -> Result<Item, Fault>
    ensures { Follows struct_row item_view cursor.old result cursor.new }
{
    let name = cursor.named_local()?;
    cursor.take_class(Terminal::Equals)?;
    cursor.take_class(Terminal::Type)?;
    let body = body(cursor)?;
    Ok(Item::Struct { name, body })
}

/// `global` or `constant`.
fn constant_word(cursor: &mut Cursor) -> Result<bool, Fault>
    ensures { Follows (λ _. constant_word_row) (λ x. x) cursor.old result cursor.new }
{
    if cursor.is_class_next(Terminal::Global) {
        cursor.take_class(Terminal::Global)?;
        return Ok(false);
    }
    cursor.take_class(Terminal::Constant)?;
    Ok(true)
}

/// `CONST`, exactly where the linkage is not `external` or `extern_weak`.
#[tactic(auto, unfolding(crate::specs::Variables::initialiser_core))]
fn initialiser(cursor: &mut Cursor, linkage: Option<Linkage>) -> Result<Option<Constant>, Fault>
    ensures { Follows (λ limits. initialiser_row limits linkage) (option_map constant_view) cursor.old result cursor.new }
{
    match linkage {
        Some(Linkage::External | Linkage::ExternWeak) => Ok(None),
        _ => {
            let constant = constant_of(cursor)?;
            Ok(Some(constant))
        }
    }
}

/// `align INT`, where no alignment is written yet, `section STRING`, or `MD`: the alignment behind it.
fn tail(cursor: &mut Cursor, alignment: Option<Integer>) -> Result<Option<Integer>, Fault>
    ensures { Follows (λ _. labelled tail_shape (tail_row alignment)) (λ x. x) cursor.old result cursor.new }
{
    if alignment.is_none() && cursor.is_class_next(Terminal::Align) {
        cursor.take_class(Terminal::Align)?;
        let written = cursor.integer()?;
        return Ok(Some(written));
    }
    if cursor.is_class_next(Terminal::Section) {
        section(cursor)?;
    } else {
        attachment(cursor)?;
    }
    Ok(alignment)
}

/// `TAIL*`, for the alignment.
fn tails(cursor: &mut Cursor) -> Result<Option<Integer>, Fault>
    ensures { Follows (λ _. tails_row) (λ x. x) cursor.old result cursor.new }
{
    let mut alignment = None;
    'tails: while cursor.is_class_next(Terminal::Comma) {
        cursor.take_class(Terminal::Comma)?;
        alignment = tail(cursor, alignment)?;
    }
    Ok(alignment)
}

/// What stands behind the type of a variable.
#[derive(Drop)]
struct VariableRest {
    initialiser: Option<Constant>,
    alignment: Option<Integer>,
}

/// `CONST? TAIL*`, behind a type.
#[tactic(auto, unfolding(crate::specs::Variables::variable_rest_core))]
fn rest_behind(cursor: &mut Cursor, linkage: Option<Linkage>) -> Result<VariableRest, Fault>
    ensures { Follows (λ limits. variable_rest_row limits linkage) variable_rest_view cursor.old result cursor.new }
{
    let initialiser = initialiser(cursor, linkage)?;
    let alignment = tails(cursor)?;
    Ok(VariableRest {
        initialiser,
        alignment,
    })
}

/// `(global|constant) TYPE CONST? TAIL*`, behind a name and a linkage.
#[tactic(auto, unfolding(crate::specs::Variables::variable_core))]
pub fn variable_behind(cursor: &mut Cursor, head: GlobalHead) -> Result<Item, Fault>
    ensures { Follows (λ limits. variable_row limits (global_view head)) item_view cursor.old result cursor.new }
{
    let GlobalHead { name, linkage } = head;
    let constant = constant_word(cursor)?;
    let ty = type_of(cursor)?;
    let VariableRest {
        initialiser,
        alignment,
    } = rest_behind(cursor, linkage)?;
    let variable = WrittenVariable {
        name,
        linkage,
        constant,
        ty,
        initialiser,
        alignment,
    };
    Ok(Item::Variable(Box::new(cursor.alloc(), variable)?))
}
