//! What a token is, by its kind and its spelling.
ghost use Rattle.std.specs.Prelude.{◌≡◌, ◌∷◌, option_map};
ghost use Rattle.ir_terminals.specs.Role.{marks, terminal};
ghost use Rattle.ir_terminals.specs.Words.{meaning_in, of_width, width_in, width_or, word_terminal};
ghost use Rattle.ir_terminals.specs.declared.terminal.Terminal.TheVariants.{Other};

use crate::digits::{are_digits, decimal_64};
use crate::terminal::Terminal;
use crate::words::listed_terminal;
use ir_lexer::TokenKind;
use ir_tables::WIDEST;

/// What an integer type of this width is.
fn width_terminal(width: Option<u64>) -> Terminal
    ensures { result ≡ width_or width Other }
{
    match width {
        Some(width) if 1 <= width && width <= WIDEST as u64 => Terminal::IntegerType(width as u8),
        _ => Terminal::Other,
    }
}

/// What an `i` is with these bytes behind it, if they are digits.
#[inline(always)]
fn integer_type(digits: &[u8]) -> Option<Terminal>
    ensures { result ≡ option_map of_width (width_in (105 ∷ digits.now)) }
{
    match digits {
        // Nearly all that a text has are these.
        b"1" => Some(Terminal::IntegerType(1)),
        b"8" => Some(Terminal::IntegerType(8)),
        b"16" => Some(Terminal::IntegerType(16)),
        b"32" => Some(Terminal::IntegerType(32)),
        b"64" => Some(Terminal::IntegerType(64)),
        _ if are_digits(digits) => Some(width_terminal(decimal_64(digits))),
        _ => None,
    }
}

/// What a word is.
#[inline(always)]
fn word_terminal(word: &[u8]) -> Terminal
    ensures { result ≡ word_terminal word.now }
{
    let [first, behind @ ..] = word else {
        return Terminal::Other;
    };
    if *first == b'i' {
        if let Some(terminal) = integer_type(behind) {
            return terminal;
        }
    }
    listed_terminal(word)
}

/// What a mark is.
#[inline(always)]
fn mark_terminal(spelling: &[u8]) -> Terminal
    ensures { result ≡ meaning_in marks spelling.now }
{
    match spelling {
        b"=" => Terminal::Equals,
        b"," => Terminal::Comma,
        b"(" => Terminal::OpenParenthesis,
        b")" => Terminal::CloseParenthesis,
        b"[" => Terminal::OpenBracket,
        b"]" => Terminal::CloseBracket,
        b"{" => Terminal::OpenBrace,
        b"}" => Terminal::CloseBrace,
        b"<" => Terminal::Less,
        b">" => Terminal::Greater,
        b"..." => Terminal::Dots,
        _ => Terminal::Other,
    }
}

/// What a token of this kind and spelling is to the phrases of the language.
#[inline(always)]
#[tactic(auto, unfolding(crate::specs::Role::terminal))]
pub fn terminal_of(kind: TokenKind, spelling: &[u8]) -> Terminal
    ensures { result ≡ terminal (record { kind = kind; spelling = spelling.now }) }
{
    match kind {
        TokenKind::Label => Terminal::Label,
        TokenKind::Word => word_terminal(spelling),
        TokenKind::Integer => Terminal::Integer,
        TokenKind::GlobalName => Terminal::GlobalName,
        TokenKind::LocalName | TokenKind::UnnamedLocal => Terminal::Local,
        TokenKind::Quoted => Terminal::Quoted,
        TokenKind::ByteString => Terminal::ByteString,
        TokenKind::MetaName => Terminal::MetaName,
        TokenKind::MetaNumber => Terminal::MetaNumber,
        TokenKind::MetaMark => Terminal::MetaMark,
        TokenKind::Group => Terminal::Group,
        TokenKind::UnnamedGlobal | TokenKind::RecordMark => Terminal::Other,
        TokenKind::Punctuation => mark_terminal(spelling),
    }
}
