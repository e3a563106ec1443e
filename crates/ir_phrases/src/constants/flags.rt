//! The flags behind an opcode.
ghost use Rattle.std.specs.Prelude.{◌≡◌, [], ◌∷◌};
ghost use Rattle.ir_terminals.specs.PhraseRows.Row.{begins};
ghost use Rattle.ir_terminals.specs.Position.{tokens_left};
ghost use Rattle.ir_terminals.specs.Role.{class};
ghost use Rattle.ir_terminals.specs.Terminal.{flag_class};
ghost use Rattle.ir_phrases.specs.Constants.Flags.{flag_step, flags_row};
ghost use Rattle.ir_terminals.specs.Follows.{Follows};

use ir_tables::{Flags, Opcode};
use ir_terminals::{Cursor, Fault, Terminal};

/// Whether the word of a flag is next.
fn is_flag_next(cursor: &Cursor) -> bool
    ensures { result ≡ begins class (flag_class ∷ []) (tokens_left cursor.now) }
{
    matches!(cursor.terminal(), Some(Terminal::Flag(_)))
}

/// `FLAG`, which is one that the opcode may have and that is not there yet: the flags with it.
fn more_flags(cursor: &mut Cursor, opcode: Opcode, flags: Flags) -> Result<Flags, Fault>
    ensures { Follows (λ _. flag_step opcode flags) (λ x. x) cursor.old result cursor.new }
{
    match cursor.terminal() {
        Some(Terminal::Flag(flag)) if opcode.may_have(flag) && !flags.has(flag) => {
            cursor.flag()?;
            Ok(flags.with(flag))
        }
        _ => Err(Fault::Refused),
    }
}

/// `FLAG*`
#[tactic(auto, unfolding(crate::specs::Constants::Flags::flags_core))]
pub fn flags_of(cursor: &mut Cursor, opcode: Opcode) -> Result<Flags, Fault>
    ensures { Follows (λ _. flags_row opcode) (λ x. x) cursor.old result cursor.new }
{
    let mut flags = Flags::empty();
    'flags: while is_flag_next(cursor) {
        flags = more_flags(cursor, opcode, flags)?;
    }
    Ok(flags)
}
