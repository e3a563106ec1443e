//! Places further on in a text.
ghost use Rattle.std.specs.Prelude.{◌≡◌, ◌+◌, ◌^◌, ◌<◌, ◌≤◌, length};
ghost use Rattle.ir_lexer.specs.Lines.{further_in_line, may_have_string, has_string_in};
ghost use Rattle.ir_lexer.specs.Place.{next_place, place_after};
ghost use Rattle.ir_lexer.specs.Table.{IsToken};

use crate::quoted::is_quoted;
use crate::token::TokenKind;
use ir_base::Place;

/// The place behind one byte.
pub fn next_place(place: Place, byte: u8) -> Place
    requires line { place.line + 1 < 2 ^ 32 }
    requires column { place.column + 1 < 2 ^ 32 }
    ensures { result ≡ next_place place byte }
{
    if byte == b'\n' {
        Place {
            line: place.line + 1,
            column: 1,
        }
    } else {
        Place {
            line: place.line,
            column: place.column + 1,
        }
    }
}

/// The place behind these bytes.
fn place_behind(place: Place, bytes: &[u8]) -> Place
    requires line { place.line + length bytes.now < 2 ^ 32 }
    requires column { place.column + length bytes.now < 2 ^ 32 }
    requires first { 1 ≤ place.column }
    ensures { result ≡ place_after place bytes.now }
{
    let mut here = place;
    for byte in bytes {
        here = next_place(here, *byte);
    }
    here
}

/// The place so many bytes further on in the same line.
pub fn place_in_line(place: Place, count: usize) -> Place
    requires { place.column + count < 2 ^ 32 }
    ensures { result ≡ further_in_line place count }
{
    Place {
        line: place.line,
        column: place.column + count as u32,
    }
}

/// Whether some tokens of the kind have a string in them.
fn may_have_string(kind: TokenKind) -> bool
    ensures { result ≡ may_have_string kind }
{
    match kind {
        TokenKind::Label
        | TokenKind::GlobalName
        | TokenKind::LocalName
        | TokenKind::Quoted
        | TokenKind::ByteString => true,
        _ => false,
    }
}

/// Whether a token has a string in it. Only then it may go over several lines.
fn has_string(kind: TokenKind, spelling: &[u8]) -> bool
    ensures { result ≡ has_string_in kind spelling.now }
{
    may_have_string(kind) && is_quoted(spelling)
}

/// The place behind a token.
pub fn place_behind_token(place: Place, kind: TokenKind, spelling: &[u8]) -> Place
    requires line { place.line + length spelling.now < 2 ^ 32 }
    requires column { place.column + length spelling.now < 2 ^ 32 }
    requires first { 1 ≤ place.column }
    requires token { IsToken kind spelling.now }
    ensures { result ≡ place_after place spelling.now }
{
    if has_string(kind, spelling) {
        place_behind(place, spelling)
    } else {
        place_in_line(place, spelling.len())
    }
}
