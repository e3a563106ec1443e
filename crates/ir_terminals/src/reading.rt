//! The calls that read one token.
ghost use Rattle.std.specs.Prelude.{◌≡◌, ◌<◌, drop, length, true, IfOk, Some};
ghost use Rattle.ir_lexer.specs.Names.{has_name, name_in, unquoted, IsQuoted};
ghost use Rattle.ir_lexer.specs.Table.{IsToken};
ghost use Rattle.ir_lexer.specs.declared.token.TokenKind.TheVariants.{Label, UnnamedLocal};
ghost use Rattle.ir_terminals.specs.Follows.{Follows};
ghost use Rattle.ir_terminals.specs.Tokens.{word, integer_row, global_name_row, local_row, named_local_row, label_row, quoted_row, byte_string_row, linkage_row, flag_row, predicate_row};
ghost use Rattle.ir_terminals.specs.Digits.{decimal};
ghost use Rattle.ir_terminals.specs.Position.{tokens_left, first_kind, first_spelling};
ghost use Rattle.ir_terminals.specs.Values.{integer_at, is_negative, label_at};

use crate::compact::{CompactName, CompactText};
use crate::cursor::Cursor;
use crate::fault::Fault;
use crate::number::Number;
use crate::terminal::Terminal;
use crate::values::{Integer, Local, PlacedName, PlacedText};
use ir_base::Place;
use ir_lexer::{TokenKind, bare_name_of, is_number, name_of, unquote};
use ir_tables::{Flag, Linkage, Predicate};
use std::alloc::{AllocError, Global};

/// The integer that is spelled so.
fn integer_at(alloc: Global, place: Place, spelling: &[u8]) -> Result<Integer, AllocError>
    requires { IsToken TokenKind.Integer spelling.now }
    ensures { IfOk result (λ integer. integer ≡ integer_at place spelling.now) }
{
    let negative = is_negative(spelling);
    let magnitude = if negative {
        Number::of_digits(alloc, &spelling[1..])?
    } else {
        Number::of_digits(alloc, spelling)?
    };
    Ok(Integer {
        negative,
        magnitude,
        place,
    })
}

/// Whether the integer has a minus.
fn is_negative(spelling: &[u8]) -> bool
    ensures { result ≡ is_negative spelling.now }
{
    matches!(spelling, [b'-', ..])
}

/// The name that the digits of an unnamed local are.
fn digits_name(alloc: Global, spelling: &[u8]) -> Result<CompactName, AllocError>
    requires { IsToken UnnamedLocal spelling.now }
    ensures { IfOk result (λ name. name ≡ drop 1 spelling.now) }
{
    CompactName::from_slice(alloc, &spelling[1..])
}

/// The name that a token of this kind spells so, with quotes or without.
#[cold]
fn any_name_at(alloc: Global, kind: TokenKind, spelling: &[u8]) -> Result<CompactName, AllocError>
    requires named { has_name kind ≡ true }
    requires token { IsToken kind spelling.now }
    ensures { IfOk result (λ name. Some name ≡ name_in (record { kind = kind; spelling = spelling.now })) }
{
    let name = name_of(alloc, kind, spelling)?;
    CompactName::from_slice(alloc, name.text().bytes())
}

/// The name that a token of this kind spells so. Without quotes it is copied out of the spelling at once.
fn name_at(alloc: Global, kind: TokenKind, spelling: &[u8]) -> Result<CompactName, AllocError>
    requires named { has_name kind ≡ true }
    requires token { IsToken kind spelling.now }
    ensures { IfOk result (λ name. Some name ≡ name_in (record { kind = kind; spelling = spelling.now })) }
{
    match bare_name_of(kind, spelling) {
        Some(name) => CompactName::from_slice(alloc, name),
        None => any_name_at(alloc, kind, spelling),
    }
}

/// The bytes that the string with this spelling stands for.
fn text_at(alloc: Global, spelling: &[u8]) -> Result<CompactText, AllocError>
    requires { IsQuoted spelling.now }
    ensures { IfOk result (λ text. Some text ≡ unquoted spelling.now) }
{
    let text = unquote(alloc, spelling)?;
    CompactText::from_slice(alloc, text.bytes())
}

/// The number of an unnamed local.
fn number_behind_mark(alloc: Global, spelling: &[u8]) -> Result<Number, AllocError>
    requires { IsToken UnnamedLocal spelling.now }
    ensures { IfOk result (λ number. number ≡ decimal (drop 1 spelling.now)) }
{
    Number::of_digits(alloc, &spelling[1..])
}

/// What the label with this spelling is called.
fn label_at(alloc: Global, place: Place, spelling: &[u8]) -> Result<Local, AllocError>
    requires { IsToken Label spelling.now }
    ensures { IfOk result (λ label. Some label ≡ label_at (record { token = record { kind = Label; spelling = spelling.now }; place = place })) }
{
    if is_number(spelling) {
        let number = Number::of_digits(alloc, &spelling[..spelling.len() - 1])?;
        return Ok(Local::Numbered(number, place));
    }
    let name = name_at(alloc, TokenKind::Label, spelling)?;
    Ok(Local::Named(PlacedName { name, place }))
}

impl<'t> Cursor<'t> {
    /// Takes a token of the class of the wanted terminal, whatever it holds, and gives its place.
    #[inline(always)]
    pub fn take_class(&mut self, wanted: Terminal) -> Result<Place, Fault>
        ensures { Follows (λ _. word wanted) (λ place. place) self.old result self.new }
    {
        if !self.is_class_next(wanted) {
            return Err(Fault::Refused);
        }
        let place = self.place();
        self.advance();
        Ok(place)
    }

    /// Takes an integer.
    pub fn integer(&mut self) -> Result<Integer, Fault>
        ensures { Follows (λ _. integer_row) (λ integer. integer) self.old result self.new }
    {
        let Some(TokenKind::Integer) = self.kind() else {
            return Err(Fault::Refused);
        };
        let integer = integer_at(self.alloc(), self.place(), self.spelling())?;
        self.advance();
        Ok(integer)
    }

    /// The name that the next token spells, which is of this kind.
    fn name_here(&self, kind: TokenKind) -> Result<CompactName, AllocError>
        requires named { has_name kind ≡ true }
        requires next { Some kind ≡ first_kind (tokens_left self.now) }
        ensures { IfOk result (λ name. Some name ≡ name_in (record { kind = kind; spelling = first_spelling (tokens_left self.now) })) }
    {
        name_at(self.alloc(), kind, self.spelling())
    }

    /// Takes the name of a global.
    pub fn global_name(&mut self) -> Result<PlacedName, Fault>
        ensures { Follows (λ _. global_name_row) (λ name. name) self.old result self.new }
    {
        let Some(TokenKind::GlobalName) = self.kind() else {
            return Err(Fault::Refused);
        };
        let place = self.place();
        let name = self.name_here(TokenKind::GlobalName)?;
        self.advance();
        Ok(PlacedName { name, place })
    }

    /// Takes a local, named or unnamed. About every fourth token of a body is one, so that this is compiled into who takes it.
    #[inline(always)]
    pub fn local(&mut self) -> Result<Local, Fault>
        ensures { Follows (λ _. local_row) (λ local. local) self.old result self.new }
    {
        let place = self.place();
        match self.kind() {
            Some(TokenKind::LocalName) => {
                let name = self.name_here(TokenKind::LocalName)?;
                self.advance();
                Ok(Local::Named(PlacedName { name, place }))
            }
            Some(TokenKind::UnnamedLocal) => {
                let number = number_behind_mark(self.alloc(), self.spelling())?;
                self.advance();
                Ok(Local::Numbered(number, place))
            }
            _ => Err(Fault::Refused),
        }
    }

    /// Takes a local that names a type or a struct. In the wider language the digits of an unnamed one are its name.
    pub fn named_local(&mut self) -> Result<PlacedName, Fault>
        ensures { Follows named_local_row (λ name. name) self.old result self.new }
    {
        let place = self.place();
        match self.kind() {
            Some(TokenKind::LocalName) => {
                let name = self.name_here(TokenKind::LocalName)?;
                self.advance();
                Ok(PlacedName { name, place })
            }
            Some(TokenKind::UnnamedLocal) if self.limits().with_left_out => {
                let name = digits_name(self.alloc(), self.spelling())?;
                self.advance();
                Ok(PlacedName { name, place })
            }
            _ => Err(Fault::Refused),
        }
    }

    /// Takes a label. One of digits alone is a number.
    pub fn label(&mut self) -> Result<Local, Fault>
        ensures { Follows (λ _. label_row) (λ label. label) self.old result self.new }
    {
        let Some(TokenKind::Label) = self.kind() else {
            return Err(Fault::Refused);
        };
        let label = label_at(self.alloc(), self.place(), self.spelling())?;
        self.advance();
        Ok(label)
    }

    /// Takes a string.
    pub fn quoted(&mut self) -> Result<PlacedText, Fault>
        ensures { Follows (λ _. quoted_row) (λ text. text) self.old result self.new }
    {
        let Some(TokenKind::Quoted) = self.kind() else {
            return Err(Fault::Refused);
        };
        let place = self.place();
        let text = text_at(self.alloc(), self.spelling())?;
        self.advance();
        Ok(PlacedText { text, place })
    }

    /// Takes a byte string.
    pub fn byte_string(&mut self) -> Result<PlacedText, Fault>
        ensures { Follows (λ _. byte_string_row) (λ text. text) self.old result self.new }
    {
        let Some(TokenKind::ByteString) = self.kind() else {
            return Err(Fault::Refused);
        };
        let place = self.place();
        let text = text_at(self.alloc(), self.spelling())?;
        self.advance();
        Ok(PlacedText { text, place })
    }

    /// Takes the word of a linkage.
    pub fn linkage(&mut self) -> Result<Linkage, Fault>
        ensures { Follows (λ _. linkage_row) (λ linkage. linkage) self.old result self.new }
    {
        let Some(Terminal::Linkage(linkage)) = self.terminal() else {
            return Err(Fault::Refused);
        };
        self.advance();
        Ok(linkage)
    }

    /// Takes the word of a flag.
    pub fn flag(&mut self) -> Result<Flag, Fault>
        ensures { Follows (λ _. flag_row) (λ flag. flag) self.old result self.new }
    {
        let Some(Terminal::Flag(flag)) = self.terminal() else {
            return Err(Fault::Refused);
        };
        self.advance();
        Ok(flag)
    }

    /// Takes the word of a predicate.
    pub fn predicate(&mut self) -> Result<Predicate, Fault>
        ensures { Follows (λ _. predicate_row) (λ predicate. predicate) self.old result self.new }
    {
        let Some(Terminal::Predicate(predicate)) = self.terminal() else {
            return Err(Fault::Refused);
        };
        self.advance();
        Ok(predicate)
    }
}
