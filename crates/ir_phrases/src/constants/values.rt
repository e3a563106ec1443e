//! Reads values.
ghost use Rattle.std.specs.Prelude.{◌≡◌, [], ◌∷◌};
ghost use Rattle.ir_terminals.specs.PhraseRows.Row.{begins};
ghost use Rattle.ir_terminals.specs.Position.{tokens_left};
ghost use Rattle.ir_terminals.specs.Role.{class};
ghost use Rattle.ir_terminals.specs.Terminal.{code};
ghost use Rattle.ir_phrases.specs.Constants.Constants.{constant_row};
ghost use Rattle.ir_phrases.specs.Constants.Values.{value_row, typed_value_row};
ghost use Rattle.ir_phrases.specs.Constants.View.{constant_view, value_view, typed_value_view};
ghost use Rattle.ir_terminals.specs.Follows.{Follows};

use crate::constants::constant::Constant;
use crate::constants::constants::{constant_of, integer_constant, is_integer_next};
use crate::constants::types::type_of;
use crate::constants::value::{TypedValue, WrittenValue};
use ir_terminals::{Cursor, Fault, Terminal};

/// Whether a local is next.
fn is_local_next(cursor: &Cursor) -> bool
    ensures { result ≡ begins class (code Terminal.Local ∷ []) (tokens_left cursor.now) }
{
    matches!(cursor.terminal(), Some(Terminal::Local))
}

/// `CONST`. Most constants are integers, so that these are read where a constant is asked for.
#[inline(always)]
#[tactic(auto, using(crate::proofs::OnConstants::Leaves::integer_first))]
fn constant(cursor: &mut Cursor) -> Result<Constant, Fault>
    ensures { Follows constant_row constant_view cursor.old result cursor.new }
{
    if is_integer_next(cursor) {
        integer_constant(cursor)
    } else {
        constant_of(cursor)
    }
}

/// `VALUE`: a local, or a constant.
#[inline(always)]
#[tactic(auto, unfolding(crate::specs::Constants::Values::value_core))]
pub fn value_of(cursor: &mut Cursor) -> Result<WrittenValue, Fault>
    ensures { Follows value_row value_view cursor.old result cursor.new }
{
    if is_local_next(cursor) {
        Ok(WrittenValue::Local(cursor.local()?))
    } else {
        Ok(WrittenValue::Constant(constant(cursor)?))
    }
}

/// `TYPE VALUE`. Most values are locals, so that these are written where they are read.
#[tactic(auto, unfolding(crate::specs::Constants::Values::typed_value_core, crate::specs::Constants::Values::value_core))]
pub fn typed_value_of(cursor: &mut Cursor) -> Result<TypedValue, Fault>
    ensures { Follows typed_value_row typed_value_view cursor.old result cursor.new }
{
    let ty = type_of(cursor)?;
    if !is_local_next(cursor) {
        let value = WrittenValue::Constant(constant(cursor)?);
        return Ok(TypedValue { ty, value });
    }
    let value = WrittenValue::Local(cursor.local()?);
    Ok(TypedValue { ty, value })
}
