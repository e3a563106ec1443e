//! Reads parts that stand one after another behind commas, at the end of an instruction.
ghost use Rattle.std.specs.Prelude.{◌≡◌, ℕ, true, List, [], ◌∷◌, map};
ghost use Rattle.ir_terminals.specs.PhraseRows.Row.{Row, apart, labelled};
ghost use Rattle.ir_terminals.specs.PhraseRows.Reads.{Reads};
ghost use Rattle.ir_lexer.specs.Ahead.{Located};
ghost use Rattle.ir_terminals.specs.declared.limits.Limits.{Limits};
ghost use Rattle.ir_terminals.specs.declared.terminal.Terminal.TheVariants.{MetaName};
ghost use Rattle.ir_terminals.specs.Follows.{Follows};
ghost use Rattle.ir_terminals.specs.Role.{class};
ghost use Rattle.ir_terminals.specs.Terminal.{code};
ghost use Rattle.ir_phrases.specs.Instructions.Tails.{listed_row, part_ahead_row, part_shape};

use crate::constants::{TypedValue, typed_value_of};
use crate::instructions::metadata::{attachment, attachments};
use crate::instructions::operation::WrittenIncoming;
use crate::instructions::parts::incoming;
use ir_terminals::{Cursor, Fault, Integer, Terminal};

/// A part of such a list: an operand, an index, a value of a phi.
pub trait Part: Drop {
    /// What its tree is.
    ghost Tree: { Type 0 };

    /// The classes that one begins with.
    ghost classes: { List ℕ };

    /// The row of one, by its parts.
    ghost core: { Limits → Row Located Tree };

    /// One as a tree.
    ghost view: { Self → Tree };

    /// Reads one.
    fn part_of(cursor: &mut Cursor) -> Result<Self, Fault>
        ensures { Follows (λ limits. labelled (part_shape classes) (core limits)) view cursor.old result cursor.new };
}

impl Part for TypedValue {
    ghost use Rattle.ir_phrases.specs.Constants.Tree.{TypedValueTree};
    ghost use Rattle.ir_phrases.specs.Constants.Types.{type_shape};
    ghost use Rattle.ir_phrases.specs.Constants.Values.{typed_value_core};
    ghost use Rattle.ir_phrases.specs.Constants.View.{typed_value_view};

    ghost Tree = { TypedValueTree };

    ghost classes = { type_shape.first };

    ghost core = { typed_value_core };

    ghost view = { typed_value_view };

    fn part_of(cursor: &mut Cursor) -> Result<TypedValue, Fault> {
        typed_value_of(cursor)
    }
}

impl Part for Integer {
    ghost use Rattle.ir_terminals.specs.declared.values.Integer.{Integer};
    ghost use Rattle.ir_terminals.specs.Tokens.{integer_row};

    ghost Tree = { Integer };

    ghost classes = { integer_row.shape.first };

    ghost core = { λ _. integer_row };

    ghost view = { λ x. x };

    fn part_of(cursor: &mut Cursor) -> Result<Integer, Fault> {
        cursor.integer()
    }
}

impl Part for WrittenIncoming {
    ghost use Rattle.ir_phrases.specs.Instructions.Operations.{incoming_core, incoming_shape};
    ghost use Rattle.ir_phrases.specs.Instructions.Tree.{IncomingTree};
    ghost use Rattle.ir_phrases.specs.Instructions.View.{incoming_view};

    ghost Tree = { IncomingTree };

    ghost classes = { incoming_shape.first };

    ghost core = { incoming_core };

    ghost view = { incoming_view };

    fn part_of(cursor: &mut Cursor) -> Result<WrittenIncoming, Fault> {
        incoming(cursor)
    }
}

/// Whether another part follows: takes the comma before it, or reads away the metadata behind the last part.
fn has_part(cursor: &mut Cursor) -> Result<bool, Fault>
    ensures { Follows (λ _. part_ahead_row) (λ x. x) cursor.old result cursor.new }
{
    if !cursor.is_class_next(Terminal::Comma) {
        return Ok(false);
    }
    cursor.take_class(Terminal::Comma)?;
    if !cursor.is_class_next(Terminal::MetaName) {
        return Ok(true);
    }
    attachment(cursor)?;
    attachments(cursor)?;
    Ok(false)
}

/// `(, PART)* (, MD)*`, behind a first part.
pub fn more_parts<P: Part>(cursor: &mut Cursor, first: P) -> Result<Vec<P>, Fault>
    requires reads { (limits : Limits) → Reads class (labelled (part_shape P.classes) (P.core limits)) (part_shape P.classes) }
    requires no_metadata { apart (code MetaName ∷ []) P.classes ≡ true }
    ensures { Follows (λ limits. listed_row (labelled (part_shape P.classes) (P.core limits)) (P.view first ∷ [])) (λ x. map P.view x.items) cursor.old result cursor.new }
{
    // Most addresses have a base and one index.
    let mut parts = Vec::with_capacity(cursor.alloc(), 2)?;
    parts.push(first)?;
    'parts: while has_part(cursor)? {
        parts.push(P::part_of(cursor)?)?;
    }
    parts.shrink_to_fit();
    Ok(parts)
}
