//! A cursor over the tokens of a text.
ghost use Rattle.std.specs.Prelude.{◌≡◌, ◌+◌, ◌≤◌, ◌<◌, length, [], ◌∷◌};
ghost use Rattle.ir_lexer.specs.Ahead.{AheadIs, ahead};
ghost use Rattle.ir_lexer.specs.Lexer.{at_start};
ghost use Rattle.ir_lexer.specs.declared.lexer.TheConstants.{LARGEST};
ghost use Rattle.ir_terminals.specs.Position.{text_tokens, tokens_left, first_kind, first_spelling, first_place, first_terminal, is_bad_next, is_behind_less, is_less, IsFirstToken, stepped};
ghost use Rattle.ir_terminals.specs.Front.{IsFrontOf, front_of, token_in};
ghost use Rattle.ir_terminals.specs.Role.{class, terminal};
ghost use Rattle.ir_terminals.specs.Terminal.{code};
ghost use Rattle.ir_terminals.specs.PhraseRows.Row.{begins};

use crate::limits::Limits;
use crate::role::terminal_of;
use crate::terminal::Terminal;
use ir_base::Place;
use ir_lexer::{Lexer, Token, TokenKind};
use std::alloc::Global;
use std::marker::Model;

/// What stands next in a text.
#[derive(Clone, Copy)]
enum Standing {
    /// A token.
    Token,
    /// The end of the text.
    End,
    /// A byte at which no token begins.
    Bad,
}

/// What stands next, and where. If it is a token: its kind, what it is to phrases, and where its bytes start and end; else no
/// bytes. It is written for each token, so that the small fields stand together, with no room between the fields.
#[derive(Clone, Copy)]
struct Front {
    standing: Standing,
    kind: TokenKind,
    terminal: Terminal,
    place: Place,
    start: usize,
    end: usize,
}

/// Goes over the tokens of a text, of which it copies none.
#[derive(Drop)]
pub struct Cursor<'t> {
    alloc: Global,
    limits: Limits,
    lexer: Lexer<'t>,
    front: Front,
    taken: usize,
    behind_less: bool,
}

impl<'t> Model for Cursor<'t> {
    ghost use Rattle.ir_terminals.specs.Position.{Position};
    ghost use Rattle.ir_terminals.specs.Front.{IsAt};

    ghost Value = { Position };

    ghost view = { λ cursor. record { limits = cursor.limits; text = cursor.lexer.text; taken = cursor.taken } };

    ghost invariant = { λ cursor. IsAt cursor.lexer cursor.front cursor.taken cursor.behind_less };
}

/// A token and its terminal, as they are kept. The line and the column are taken one by one, as the lexer has them.
#[inline(always)]
fn of_token(token: Token, terminal: Terminal) -> Front
    ensures { result ≡ front_of token terminal }
{
    Front {
        standing: Standing::Token,
        kind: token.kind,
        terminal,
        place: Place {
            line: token.place.line,
            column: token.place.column,
        },
        start: token.start,
        end: token.end,
    }
}

/// The token that stands there, if one does; else no bytes.
#[inline(always)]
fn token_of(front: &Front) -> Token
    ensures { result ≡ token_in front.now }
{
    Token {
        kind: front.kind,
        place: front.place,
        start: front.start,
        end: front.end,
    }
}

/// The front at this place, where no token stands.
fn without_token(standing: Standing, place: Place) -> Front
    ensures standing { result.standing ≡ standing }
    ensures place { result.place ≡ place }
    ensures start { result.start ≡ 0 }
    ensures no_bytes { result.«end» ≡ 0 }
{
    Front {
        standing,
        kind: TokenKind::Punctuation,
        terminal: Terminal::Other,
        place,
        start: 0,
        end: 0,
    }
}

/// Puts a token where it is kept, with its terminal.
#[inline(always)]
fn put_token(token: Token, spelling: &[u8], front: &mut Front)
    ensures { front.new ≡ front_of token (terminal (record { kind = token.kind; spelling = spelling.now })) }
{
    *front = of_token(token, terminal_of(token.kind, spelling));
}

/// Puts what the lexer answers next where it is kept, whatever that is. Few answers come here, so that this stands apart.
#[cold]
#[inline(never)]
fn any_front(lexer: &mut Lexer, front: &mut Front)
    ensures { IsFrontOf lexer.old front.new lexer.new }
{
    match lexer.next() {
        Ok(Some(token)) => {
            let terminal = terminal_of(token.kind, lexer.spelling(&token));
            *front = of_token(token, terminal);
        }
        Ok(None) => *front = without_token(Standing::End, lexer.place()),
        Err(bad) => *front = without_token(Standing::Bad, bad.place),
    }
}

/// Puts what the lexer answers next where it is kept, however many separators and comments stand before it.
#[inline(never)]
fn spaced_front(lexer: &mut Lexer, front: &mut Front)
    ensures { IsFrontOf lexer.old front.new lexer.new }
{
    lexer.skip_gap();
    match lexer.next_plain() {
        Some(token) => put_token(token, lexer.spelling(&token), front),
        None => any_front(lexer, front),
    }
}

/// Puts what the lexer answers next where it is kept. Nearly all that it answers are tokens that few bytes tell, behind one
/// space or none. The look for these is compiled into this, which is called, so that no place that takes a token holds a copy
/// of it.
#[inline(never)]
fn next_front(lexer: &mut Lexer, front: &mut Front)
    ensures { IsFrontOf lexer.old front.new lexer.new }
{
    match lexer.next_plain() {
        Some(token) => put_token(token, lexer.spelling(&token), front),
        None => spaced_front(lexer, front),
    }
}

impl<'t> Cursor<'t> {
    /// A cursor at the first token of the text, which has at most 16 MiB. The tokens are those of the text, or those
    /// before its first byte at which no token begins, and there are no more of them than bytes.
    pub fn new(alloc: Global, text: &'t [u8], limits: Limits) -> Cursor<'t>
        requires { length text.now ≤ LARGEST }
        ensures start { result ≡ record { limits = limits; text = text.now; taken = 0 } }
        ensures tokens { AheadIs text.now (ahead (at_start text.now)) }
        ensures few { length (text_tokens text.now) ≤ length text.now }
    {
        let mut lexer = Lexer::new(text);
        let mut front = without_token(Standing::End, lexer.place());
        next_front(&mut lexer, &mut front);
        Cursor {
            alloc,
            limits,
            lexer,
            front,
            taken: 0,
            behind_less: false,
        }
    }

    /// The allocator.
    pub fn alloc(&self) -> Global {
        self.alloc
    }

    /// The limits of the phrases.
    pub fn limits(&self) -> Limits
        ensures { result ≡ self.now.limits }
    {
        self.limits
    }

    /// How many tokens were taken.
    pub fn taken(&self) -> usize
        ensures count { result ≡ self.now.taken }
        ensures within { self.now.taken ≤ length (text_tokens self.now.text) }
        ensures few { length (text_tokens self.now.text) ≤ length self.now.text }
        ensures short { length self.now.text ≤ LARGEST }
    {
        self.taken
    }

    /// What the next token is, if one is left.
    pub fn terminal(&self) -> Option<Terminal>
        ensures { result ≡ first_terminal (tokens_left self.now) }
    {
        match self.front.standing {
            Standing::Token => Some(self.front.terminal),
            Standing::End => None,
            Standing::Bad => None,
        }
    }

    /// The kind of the next token, if one is left.
    pub fn kind(&self) -> Option<TokenKind>
        ensures { result ≡ first_kind (tokens_left self.now) }
    {
        match self.front.standing {
            Standing::Token => Some(self.front.kind),
            Standing::End => None,
            Standing::Bad => None,
        }
    }

    /// The bytes of the next token, and none if no token is left.
    pub fn spelling(&self) -> &[u8]
        ensures bytes { result.now ≡ first_spelling (tokens_left self.now) }
        ensures token { IsFirstToken (tokens_left self.now) }
    {
        self.lexer.spelling(&token_of(&self.front))
    }

    /// The place of the next token, or of the end of the text, or of the byte at which no token begins.
    pub fn place(&self) -> Place
        ensures { result ≡ first_place self.now (tokens_left self.now) }
    {
        self.front.place
    }

    /// Whether all tokens were taken, and behind them stands a byte at which no token begins.
    pub fn is_bad(&self) -> bool
        ensures { result ≡ is_bad_next self.now (tokens_left self.now) }
    {
        match self.front.standing {
            Standing::Token => false,
            Standing::End => false,
            Standing::Bad => true,
        }
    }

    /// Whether the last token that was taken is `<`.
    pub(crate) fn is_behind_less(&self) -> bool
        ensures { result ≡ is_behind_less self.now.text self.now.taken }
    {
        self.behind_less
    }

    /// Whether a token of the class of the wanted terminal is next, whatever it holds.
    #[inline(always)]
    pub fn is_class_next(&self, wanted: Terminal) -> bool
        ensures { result ≡ begins class (code wanted ∷ []) (tokens_left self.now) }
    {
        match self.terminal() {
            Some(terminal) => terminal.code() == wanted.code(),
            None => false,
        }
    }

    /// Goes over the next token.
    #[inline(always)]
    pub(crate) fn advance(&mut self)
        requires { 0 < length (tokens_left self.old) }
        ensures { self.new ≡ stepped self.old }
    {
        self.behind_less = is_less(self.front.terminal);
        next_front(&mut self.lexer, &mut self.front);
        self.taken += 1;
    }
}

/// Whether a token of this terminal is `<`.
#[inline(always)]
fn is_less(terminal: Terminal) -> bool
    ensures { result ≡ is_less terminal }
{
    matches!(terminal, Terminal::Less)
}
