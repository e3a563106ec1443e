//! Strings between quotes, and the bytes that they stand for.
ghost use Rattle.std.specs.Prelude.{◌≡◌, ◌<◌, ◌≤◌, length, true, Some, IfSome, IfOk};
ghost use Rattle.ir_lexer.specs.Class.{is_quote, is_colon};
ghost use Rattle.ir_lexer.specs.Form.{longest, Done, One};
ghost use Rattle.ir_lexer.specs.Quoted.{HighFits, UnescapedFits, digit_value, unescaped, decode, zeros, is_text, is_name};
ghost use Rattle.ir_lexer.specs.Names.{IsQuoted, is_quoted, behind_quote, between_quotes, unquoted};
ghost use Rattle.ir_lexer.specs.declared.quoted.Escape.TheVariants.{Plain};
ghost use Rattle.ir_lexer.specs.Table.{QuotedLabel, tail_of, string, inside};

use crate::class::ClassSet;
use crate::run::{begins, run_of};
use ir_base::Text;
use std::alloc::{AllocError, Global};

/// Where reading the inside of a string stands.
#[derive(Clone, Copy)]
pub enum Escape {
    /// Outside an escape.
    Plain,
    /// Behind a backslash.
    Slash,
    /// Behind a backslash and a digit of this value.
    High(u8),
}

/// What a byte completes: a longer escape, or a byte.
#[derive(Clone, Copy)]
pub enum Unescaped {
    /// The escape goes on.
    More(Escape),
    /// A byte is whole.
    Byte(u8),
    /// There is no such escape.
    Bad,
}

#[tactic(auto, unfolding(crate::specs::Quoted::digit_value))]
fn value_of(byte: u8) -> Option<u8>
    ensures value { result ≡ digit_value byte }
    ensures small { IfSome result (λ v. v < 16) }
{
    match byte {
        b'0'..=b'9' => Some(byte - b'0'),
        b'a'..=b'f' => Some(byte - b'a' + 10),
        b'A'..=b'F' => Some(byte - b'A' + 10),
        _ => None,
    }
}

/// What a byte of the inside of a string completes.
#[tactic(auto, unfolding(crate::specs::Quoted::unescaped, crate::specs::Quoted::digit_value))]
fn unescape(state: Escape, byte: u8) -> Unescaped
    requires { HighFits state }
    ensures value { result ≡ unescaped state byte }
    ensures fits { UnescapedFits result }
{
    match state {
        Escape::Plain => {
            if byte == b'\\' {
                Unescaped::More(Escape::Slash)
            } else {
                Unescaped::Byte(byte)
            }
        }
        Escape::Slash => {
            if byte == b'\\' {
                return Unescaped::Byte(b'\\');
            }
            match value_of(byte) {
                Some(high) => Unescaped::More(Escape::High(high)),
                None => Unescaped::Bad,
            }
        }
        Escape::High(high) => match value_of(byte) {
            Some(low) => Unescaped::Byte(16 * high + low),
            None => Unescaped::Bad,
        },
    }
}

/// Whether the inside of a string has a zero byte, if it stands for bytes.
fn zeros_of(inside: &[u8]) -> Option<bool>
    ensures { result ≡ zeros inside.now }
{
    let mut state = Escape::Plain;
    let mut zero = false;
    for byte in inside {
        match unescape(state, *byte) {
            Unescaped::More(next) => state = next,
            Unescaped::Byte(byte) => {
                state = Escape::Plain;
                zero = zero | (byte == 0);
            }
            Unescaped::Bad => return None,
        }
    }
    match state {
        Escape::Plain => Some(zero),
        _ => None,
    }
}

/// Whether this is the inside of a name.
fn is_name_inside(inside: &[u8]) -> bool
    ensures { result ≡ is_name inside.now }
{
    !inside.is_empty() && zeros_of(inside) == Some(false)
}

/// The length of what makes a string of the quote before.
pub fn inside_of(bytes: &[u8]) -> Option<usize>
    ensures length { result ≡ longest (inside is_text Done) bytes.now }
    ensures in_bytes { IfSome result (λ n. n ≤ length bytes.now) }
{
    let n = run_of(ClassSet::NoQuote, bytes);
    if zeros_of(&bytes[..n]).is_some() && begins(ClassSet::Quotes, &bytes[n..]) {
        Some(n + 1)
    } else {
        None
    }
}

/// The length of what makes the string of a name of the quote before.
pub fn name_inside_of(bytes: &[u8]) -> Option<usize>
    ensures length { result ≡ longest (inside is_name Done) bytes.now }
    ensures in_bytes { IfSome result (λ n. n ≤ length bytes.now) }
{
    let n = run_of(ClassSet::NoQuote, bytes);
    if is_name_inside(&bytes[..n]) && begins(ClassSet::Quotes, &bytes[n..]) {
        Some(n + 1)
    } else {
        None
    }
}

/// The length of a quote and a colon at the front.
pub fn quote_and_colon_of(bytes: &[u8]) -> Option<usize>
    ensures length { result ≡ longest (One is_quote (One is_colon Done)) bytes.now }
    ensures in_bytes { IfSome result (λ n. n ≤ length bytes.now) }
{
    if begins(ClassSet::Quotes, bytes) && begins(ClassSet::Colons, &bytes[1..]) {
        Some(2)
    } else {
        None
    }
}

/// The length of what makes a label of the quote before.
pub fn label_inside_of(bytes: &[u8]) -> Option<usize>
    ensures length { result ≡ longest (tail_of QuotedLabel) bytes.now }
    ensures in_bytes { IfSome result (λ n. n ≤ length bytes.now) }
{
    let n = run_of(ClassSet::NoQuote, bytes);
    if !is_name_inside(&bytes[..n]) {
        return None;
    }
    match quote_and_colon_of(&bytes[n..]) {
        Some(m) => Some(n + m),
        None => None,
    }
}

/// The length of a string at the front.
pub fn text_of(bytes: &[u8]) -> Option<usize>
    ensures length { result ≡ longest (string is_text) bytes.now }
    ensures in_bytes { IfSome result (λ n. n ≤ length bytes.now) }
{
    if !begins(ClassSet::Quotes, bytes) {
        return None;
    }
    match inside_of(&bytes[1..]) {
        Some(n) => Some(n + 1),
        None => None,
    }
}

/// The length of the string of a name at the front.
pub fn quoted_name_of(bytes: &[u8]) -> Option<usize>
    ensures length { result ≡ longest (string is_name) bytes.now }
    ensures in_bytes { IfSome result (λ n. n ≤ length bytes.now) }
{
    if !begins(ClassSet::Quotes, bytes) {
        return None;
    }
    match name_inside_of(&bytes[1..]) {
        Some(n) => Some(n + 1),
        None => None,
    }
}

/// The bytes that the inside of a string stands for.
fn decoded_of(alloc: Global, inside: &[u8]) -> Result<Vec<u8>, AllocError>
    requires { is_text inside.now ≡ true }
    ensures { IfOk result (λ bytes. Some bytes.items ≡ decode Plain inside.now) }
{
    let mut bytes = Vec::new(alloc);
    let mut state = Escape::Plain;
    for byte in inside {
        match unescape(state, *byte) {
            Unescaped::More(next) => state = next,
            Unescaped::Byte(byte) => {
                state = Escape::Plain;
                bytes.push(byte)?;
            }
            Unescaped::Bad => {}
        }
    }
    Ok(bytes)
}

/// Whether a token with this spelling has a string in it, which `unquote` reads.
pub fn is_quoted(spelling: &[u8]) -> bool
    ensures { result ≡ is_quoted spelling.now }
{
    begins(ClassSet::Quotes, spelling)
        || !spelling.is_empty() && begins(ClassSet::Quotes, &spelling[1..])
}

/// The bytes that a quoted spelling stands for: `\xx` is the byte with that hexadecimal value, `\\` one backslash.
///
/// It asks for the whole spelling of a token that has a string in it, which is `"a"`, `c"a"`, `@"a"`, `%"a"` or `"a":`.
pub fn unquote(alloc: Global, spelling: &[u8]) -> Result<Text, AllocError>
    requires { IsQuoted spelling.now }
    ensures { IfOk result (λ text. Some text ≡ unquoted spelling.now) }
{
    let behind = &spelling[run_of(ClassSet::NoQuote, spelling) + 1..];
    let inside = &behind[..run_of(ClassSet::NoQuote, behind)];
    Ok(Text::from_vec(decoded_of(alloc, inside)?))
}
