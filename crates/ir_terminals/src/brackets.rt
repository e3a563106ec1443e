//! Brackets and all that stands in them.
ghost use Rattle.std.specs.Prelude.{◌≡◌, IfOk, IfErr};
ghost use Rattle.ir_terminals.specs.Brackets.{role, step_by, move_of, nearest_first, any_matched_row, matched_row, braced_row};
ghost use Rattle.ir_terminals.specs.Follows.{Follows};
ghost use Rattle.ir_terminals.specs.declared.brackets.Role.TheVariants.{Closes};
ghost use Rattle.ir_terminals.specs.declared.fault.Fault.TheVariants.{Memory};

use crate::cursor::Cursor;
use crate::fault::Fault;
use crate::terminal::Terminal;

/// A kind of brackets.
#[derive(Clone, Copy, PartialEq, Eq)]
enum Bracket {
    /// `(` and `)`.
    Parenthesis,
    /// `[` and `]`.
    Square,
    /// `{` and `}`.
    Brace,
    /// `<` and `>`.
    Angle,
}

/// What a token does to the brackets that are open.
#[derive(Clone, Copy)]
enum Role {
    /// It opens a bracket of that kind.
    Opens(Bracket),
    /// It closes a bracket of that kind.
    Closes(Bracket),
    /// It is no bracket.
    Neither,
}

/// Whether all brackets are closed behind a token, or some are open, or it closes none that is open.
#[derive(Clone, Copy)]
enum BracketTurn {
    /// Some are open behind the token.
    On,
    /// All are closed behind it.
    Ends,
    /// It closes none that is open.
    Stops,
}

fn role_of(terminal: Terminal) -> Role
    ensures { result ≡ role terminal }
{
    match terminal {
        Terminal::OpenParenthesis => Role::Opens(Bracket::Parenthesis),
        Terminal::OpenBracket => Role::Opens(Bracket::Square),
        Terminal::OpenBrace => Role::Opens(Bracket::Brace),
        Terminal::Less => Role::Opens(Bracket::Angle),
        Terminal::CloseParenthesis => Role::Closes(Bracket::Parenthesis),
        Terminal::CloseBracket => Role::Closes(Bracket::Square),
        Terminal::CloseBrace => Role::Closes(Bracket::Brace),
        Terminal::Greater => Role::Closes(Bracket::Angle),
        _ => Role::Neither,
    }
}

/// Closes the bracket that was opened last, which is to be of this kind.
fn close(unclosed: &mut Vec<Bracket>, bracket: Bracket) -> BracketTurn
    ensures { step_by (nearest_first unclosed.old.items) (Closes bracket) ≡ move_of result (nearest_first unclosed.new.items) }
{
    match unclosed.pop() {
        Some(last) if last == bracket => {
            if unclosed.is_empty() {
                BracketTurn::Ends
            } else {
                BracketTurn::On
            }
        }
        _ => BracketTurn::Stops,
    }
}

/// What a token does to the brackets that are open, of which the last is the nearest.
fn turn_of(unclosed: &mut Vec<Bracket>, role: Role) -> Result<BracketTurn, Fault>
    ensures step { IfOk result (λ turn. step_by (nearest_first unclosed.old.items) role ≡ move_of turn (nearest_first unclosed.new.items)) }
    ensures memory { IfErr result (λ fault. fault ≡ Memory) }
{
    match role {
        Role::Opens(bracket) => {
            unclosed.push(bracket)?;
            Ok(BracketTurn::On)
        }
        Role::Closes(bracket) => Ok(close(unclosed, bracket)),
        Role::Neither if unclosed.is_empty() => Ok(BracketTurn::Stops),
        Role::Neither => Ok(BracketTurn::On),
    }
}

impl<'t> Cursor<'t> {
    /// Takes an opening bracket and all tokens up to the one that closes it.
    fn skip_any_brackets(&mut self) -> Result<(), Fault>
        ensures { Follows (λ _. any_matched_row) (λ _. tt) self.old result self.new }
    {
        let mut unclosed = Vec::new(self.alloc());
        'tokens: while let Some(terminal) = self.terminal() {
            let turn = turn_of(&mut unclosed, role_of(terminal))?;
            match turn {
                BracketTurn::On => self.advance(),
                BracketTurn::Ends => {
                    self.advance();
                    return Ok(());
                }
                BracketTurn::Stops => return Err(Fault::Refused),
            }
        }
        Err(Fault::Refused)
    }

    /// Takes this opening bracket and all tokens up to the one that closes it. Each bracket between them is closed by
    /// its own kind.
    pub fn skip_brackets(&mut self, opening: Terminal) -> Result<(), Fault>
        ensures { Follows (λ _. matched_row opening) (λ _. tt) self.old result self.new }
    {
        if !self.is_class_next(opening) {
            return Err(Fault::Refused);
        }
        self.skip_any_brackets()
    }

    /// Takes an opening brace and all tokens up to the next brace, which closes it.
    pub fn skip_braced(&mut self) -> Result<(), Fault>
        ensures { Follows (λ _. braced_row) (λ _. tt) self.old result self.new }
    {
        let Some(Terminal::OpenBrace) = self.terminal() else {
            return Err(Fault::Refused);
        };
        self.advance();
        'tokens: while let Some(terminal) = self.terminal() {
            match terminal {
                Terminal::CloseBrace => {
                    self.advance();
                    return Ok(());
                }
                Terminal::OpenBrace => return Err(Fault::Refused),
                _ => self.advance(),
            }
        }
        Err(Fault::Refused)
    }
}
