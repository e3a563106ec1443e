//! A lexer: it goes over a text that it borrows, token by token.
ghost use Rattle.std.specs.Prelude.{◌≡◌, ◌+◌, ◌≤◌, length, take, drop, false, None, IfSome};
ghost use Rattle.ir_lexer.specs.Ahead.{ahead};
ghost use Rattle.ir_lexer.specs.Class.{in_word};
ghost use Rattle.ir_lexer.specs.Form.{run};
ghost use Rattle.ir_lexer.specs.Front.{next_token};
ghost use Rattle.ir_lexer.specs.Gap.{gap_length};
ghost use Rattle.ir_lexer.specs.Label.{KnownRun};
ghost use Rattle.ir_lexer.specs.Place.{place_of, place_after};
ghost use Rattle.ir_lexer.specs.Table.{IsToken};
ghost use Rattle.ir_lexer.specs.Lexer.{at_start, rest, token_spelling, Says, IsPlaced, IsAnswered, Stays, answer, after, advanced, skipped, token_at, is_nil};

use crate::class::ClassSet;
use crate::front::{fitting_token_of, plain_token_of};
use crate::gap::{first_space, gap_of};
use crate::label::{is_ended_word, run_without_label};
use crate::place::{place_behind_token, place_in_line};
use crate::run::{begins, run_of};
use crate::token::{BadByte, Token, TokenKind};
use ir_base::Place;
use std::marker::Model;

/// The most bytes of a text: 16 MiB.
pub const LARGEST: usize = 16_777_216;

/// Goes over a text, token by token. It copies none of the text, and takes no memory.
#[derive(Drop)]
pub struct Lexer<'t> {
    text: &'t [u8],
    at: usize,
    place: Place,
    /// Up to here the text is known to go on with bytes of names and then no colon.
    known: usize,
}

impl<'t> Model for Lexer<'t> {
    ghost use Rattle.std.specs.Prelude.{◌≡◌, ℕ, ◌+◌, ◌-◌, ◌≤◌, length, drop};
    ghost use Rattle.ir_lexer.specs.Label.{KnownRun};
    ghost use Rattle.ir_lexer.specs.Lexer.{Lexing};
    ghost use Rattle.ir_lexer.specs.Place.{place_of};
    ghost use Rattle.ir_lexer.specs.declared.lexer.TheConstants.{LARGEST};

    ghost Value = { Lexing };

    ghost view = { λ x. record { text = x.text.now; at = x.at } };

    ghost invariant = { λ x. (x.at ≤ length x.text.now) × (length x.text.now ≤ LARGEST) × (x.place ≡ place_of x.text.now x.at) × (x.known ≤ length x.text.now) × KnownRun (x.known - x.at) (drop x.at x.text.now) };
}

impl<'t> Lexer<'t> {
    /// A lexer at the first byte of the text.
    pub fn new(text: &'t [u8]) -> Lexer<'t>
        requires { length text.now ≤ LARGEST }
        ensures { result ≡ at_start text.now }
    {
        Lexer {
            text,
            at: 0,
            place: Place { line: 1, column: 1 },
            known: 0,
        }
    }

    /// Goes over bytes of the rest, behind which the place is this one.
    fn advance(&mut self, n: usize, place: Place)
        requires within { n ≤ length (rest self.old) }
        requires place { place ≡ place_after (place_of self.old.text self.old.at) (take n (rest self.old)) }
        ensures { self.new ≡ advanced self.old n }
    {
        self.place = place;
        self.at += n;
    }

    /// The length of the separators and comments here, and the place behind them.
    #[inline(always)]
    fn gap(&self) -> (usize, Place)
        ensures length { result.0 ≡ gap_length false (rest self.now) }
        ensures in_rest { result.0 ≤ length (rest self.now) }
        ensures place { result.1 ≡ place_after (place_of self.now.text self.now.at) (take result.0 (rest self.now)) }
        ensures within { self.now.at ≤ length self.now.text }
    {
        gap_of(self.place, &self.text[self.at..])
    }

    /// How many spaces stand here, of which one alone is looked for, and the place behind them.
    #[inline(always)]
    fn space(&self) -> (usize, Place)
        ensures gap { gap_length false (rest self.now) ≡ result.0 + gap_length false (drop result.0 (rest self.now)) }
        ensures in_rest { result.0 ≤ length (rest self.now) }
        ensures place { result.1 ≡ place_after (place_of self.now.text self.now.at) (take result.0 (rest self.now)) }
        ensures within { self.now.at ≤ length self.now.text }
    {
        let space = first_space(&self.text[self.at..]);
        (space, place_in_line(self.place, space))
    }

    /// Goes over separators and comments.
    #[inline(always)]
    #[tactic(auto, unfolding(crate::specs::Lexer::skipped))]
    fn skip(&mut self)
        ensures skipped { self.new ≡ skipped self.old }
        ensures within { self.old.at ≤ length self.old.text }
    {
        let (gap, place) = self.gap();
        self.advance(gap, place);
    }

    /// Whether nothing is left.
    fn is_at_end(&self) -> bool
        ensures { result ≡ is_nil (rest self.now) }
    {
        self.text[self.at..].is_empty()
    }

    /// How many bytes of a word stand here.
    fn word(&self) -> usize
        ensures { result ≡ run in_word (rest self.now) }
    {
        run_of(ClassSet::InWord, &self.text[self.at..])
    }

    /// Looks once for the end of a run of bytes of names, of which the first so many are those of a word.
    fn scout(&mut self, word: usize)
        requires { word ≡ run in_word (rest self.old) }
        ensures { self.new ≡ self.old }
    {
        if self.known <= self.at {
            self.known = self.at + run_without_label(word, &self.text[self.at..]);
        }
    }

    /// How many bytes of names stand here where no colon follows them, or 0. So many bytes of a word stand here. What
    /// stands behind a word tells it nearly always; where it does not, the end of the run is looked for once.
    fn run_known(&mut self, word: usize) -> usize
        requires { word ≡ run in_word (rest self.old) }
        ensures known { KnownRun result (rest self.old) }
        ensures same { self.new ≡ self.old }
    {
        if is_ended_word(word, &self.text[self.at..]) {
            return word;
        }
        self.scout(word);
        self.known.saturating_sub(self.at)
    }

    /// How many bytes of a word stand here, and how many of names where no colon follows them, or 0.
    fn survey(&mut self) -> (usize, usize)
        ensures word { result.0 ≡ run in_word (rest self.old) }
        ensures known { KnownRun result.1 (rest self.old) }
        ensures same { self.new ≡ self.old }
    {
        if !begins(ClassSet::InName, &self.text[self.at..]) {
            return (0, 0);
        }
        let word = self.word();
        (word, self.run_known(word))
    }

    /// The kind and the length of the token here, where so many bytes of a word stand, and so many of names where no
    /// colon follows them.
    fn front(&self, word: usize, known: usize) -> Option<(TokenKind, usize)>
        requires word { word ≡ run in_word (rest self.now) }
        requires known { KnownRun known (rest self.now) }
        ensures token { result ≡ next_token (rest self.now) }
        ensures in_rest { IfSome result (λ found. found.1 ≤ length (rest self.now)) }
        ensures spelled { IfSome result (λ found. IsToken found.0 (take found.1 (rest self.now))) }
    {
        fitting_token_of(known, word, &self.text[self.at..])
    }

    /// The place of the byte at which the lexer stands, or of the end of the text.
    pub fn place(&self) -> Place
        ensures { result ≡ place_of self.now.text self.now.at }
    {
        self.place
    }

    /// The token of this kind and length, which it goes over.
    fn take(&mut self, kind: TokenKind, count: usize) -> Token
        requires within { count ≤ length (rest self.old) }
        requires spelled { IsToken kind (take count (rest self.old)) }
        ensures token { result ≡ token_at self.old kind count }
        ensures after { self.new ≡ advanced self.old count }
    {
        let place = self.place;
        let start = self.at;
        let behind = place_behind_token(place, kind, &self.text[start..start + count]);
        self.advance(count, behind);
        Token {
            kind,
            place,
            start,
            end: self.at,
        }
    }

    /// The next token as reading gives it.
    #[tactic(auto, using(crate::proofs::Lexes::nothing_next), unfolding(crate::specs::Lexer::answer, crate::specs::Lexer::after))]
    fn read(&mut self) -> Result<Option<Token>, BadByte>
        ensures answer { result ≡ answer self.old }
        ensures after { self.new ≡ after self.old }
        ensures within { self.old.at ≤ length self.old.text }
    {
        self.skip();
        if self.is_at_end() {
            return Ok(None);
        }
        let (word, known) = self.survey();
        match self.front(word, known) {
            Some((kind, count)) => Ok(Some(self.take(kind, count))),
            None => Err(BadByte {
                place: self.place(),
            }),
        }
    }

    /// The next token, or None at the end of the text.
    ///
    /// It is refused exactly where the separators and comments end at a byte at which no token begins. After that, and
    /// at the end, each later call answers the same.
    pub fn next(&mut self) -> Result<Option<Token>, BadByte>
        ensures says { Says self.old result self.new }
        ensures placed { IsPlaced self.old result self.new }
        ensures text { self.new.text ≡ self.old.text }
        ensures stays { Stays result self.new }
        ensures answer { result ≡ answer self.old }
        ensures after { self.new ≡ after self.old }
    {
        self.read()
    }

    /// Goes over the separators and comments here. The tokens ahead stay the same.
    pub fn skip_gap(&mut self)
        ensures skipped { self.new ≡ skipped self.old }
        ensures ahead { ahead self.new ≡ ahead self.old }
        ensures text { self.new.text ≡ self.old.text }
    {
        self.skip();
    }

    /// The next token, as `next` answers it, where nothing or one space stands before it and few bytes tell it: nearly all are
    /// of this kind. Else None, and the lexer stands where it stood.
    #[inline(always)]
    pub fn next_plain(&mut self) -> Option<Token>
        ensures answered { IfSome result (λ token. IsAnswered self.old token self.new) }
        ensures none { result ≡ None → self.new ≡ self.old }
        ensures text { self.new.text ≡ self.old.text }
    {
        let (gap, place) = self.space();
        let start = self.at + gap;
        let (kind, count) = plain_token_of(&self.text[start..])?;
        self.advance(gap + count, place_in_line(place, count));
        Some(Token {
            kind,
            place,
            start,
            end: start + count,
        })
    }

    /// The bytes of a token. Its start and end lie in the text, in this order.
    pub fn spelling(&self, token: &Token) -> &[u8]
        requires order { token.now.start ≤ token.now.«end» }
        requires within { token.now.«end» ≤ length self.now.text }
        ensures { result.now ≡ (token_spelling self.now.text token.now).spelling }
    {
        &self.text[token.start..token.end]
    }
}
