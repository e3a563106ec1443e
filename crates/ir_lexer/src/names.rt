//! The names that tokens spell.
ghost use Rattle.std.specs.Prelude.{◌≡◌, ◌<◌, length, true, is_none, Some, IfOk, IfSome};
ghost use Rattle.ir_base.specs.Name.{IsName};
ghost use Rattle.ir_lexer.specs.Names.{has_name, is_number, is_quoted, bare_name, name_in};
ghost use Rattle.ir_lexer.specs.Table.{IsToken};

use crate::class::ClassSet;
use crate::quoted::{is_quoted, unquote};
use crate::run::run_of;
use crate::token::TokenKind;
use ir_base::{Name, Text};
use std::alloc::{AllocError, Global};

/// A spelling without the colon behind it, if it is a label's, else without the mark before it.
fn bare_name(kind: TokenKind, spelling: &[u8]) -> &[u8]
    requires { 0 < length spelling.now }
    ensures { result.now ≡ bare_name kind spelling.now }
{
    match kind {
        TokenKind::Label => &spelling[..spelling.len() - 1],
        _ => &spelling[1..],
    }
}

/// Whether the spelling of a label is a number: digits alone, and the colon. A quoted label never is.
pub fn is_number(label: &[u8]) -> bool
    requires { 0 < length label.now }
    ensures { result ≡ is_number label.now }
{
    let digits = bare_name(TokenKind::Label, label);
    run_of(ClassSet::Digits, digits) == digits.len()
}

/// The bytes of the name that a label, a global name or a local name spells, as they stand in its spelling. None where it is
/// quoted.
pub fn bare_name_of(kind: TokenKind, spelling: &[u8]) -> Option<&[u8]>
    requires named { has_name kind ≡ true }
    requires token { IsToken kind spelling.now }
    ensures quoted { is_none result ≡ is_quoted spelling.now }
    ensures name { IfSome result (λ name. IsName name.now) }
    ensures bytes { IfSome result (λ name. Some name.now ≡ name_in (record { kind = kind; spelling = spelling.now })) }
{
    if is_quoted(spelling) {
        return None;
    }
    Some(bare_name(kind, spelling))
}

/// The bytes of the name that a label, a global name or a local name spells.
fn name_text(alloc: Global, kind: TokenKind, spelling: &[u8]) -> Result<Text, AllocError>
    requires { IsToken kind spelling.now }
    ensures { IfOk result (λ text. Some text ≡ name_in (record { kind = kind; spelling = spelling.now })) }
{
    if is_quoted(spelling) {
        unquote(alloc, spelling)
    } else {
        Text::from_slice(alloc, bare_name(kind, spelling))
    }
}

/// The name that a label, a global name or a local name spells: the bytes of its string, or its bytes without the
/// colon behind them or the mark before them.
pub fn name_of(alloc: Global, kind: TokenKind, spelling: &[u8]) -> Result<Name, AllocError>
    requires named { has_name kind ≡ true }
    requires token { IsToken kind spelling.now }
    ensures { IfOk result (λ name. Some name ≡ name_in (record { kind = kind; spelling = spelling.now })) }
{
    let text = name_text(alloc, kind, spelling)?;
    Ok(Name::from_text(text).unwrap())
}
