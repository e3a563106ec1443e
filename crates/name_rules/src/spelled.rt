//! Names and numbers as refusals tell them: as canonical text spells them.
ghost use Rattle.std.specs.Prelude.{◌≡◌, ◌∷◌, ◌++◌, ◌<◌, IfOk, OnOk};
ghost use Rattle.ir_lexer.specs.Class.{byte_class, starts_name, in_name};
ghost use Rattle.ir_lexer.specs.Form.{each};
ghost use Rattle.name_rules.specs.Locals.{local_in};
ghost use Rattle.name_rules.specs.Spelled.{decimal, hexadecimal, is_plain, quoted_byte, is_identifier, name_spelling, spelled_global, spelled_struct, spelled_local};

use ir_base::Text;
use ir_terminals::{Local, Number};
use std::alloc::{AllocError, Global};

/// Whether an identifier may begin with the byte.
#[tactic(auto, using(crate::proofs::Identifiers::is_starting))]
fn starts_identifier(byte: u8) -> bool
    ensures { result ≡ starts_name (byte_class byte) }
{
    ((b'a' <= byte) & (byte <= b'z'))
        | ((b'A' <= byte) & (byte <= b'Z'))
        | (byte == b'_')
        | (byte == b'-')
        | (byte == b'$')
        | (byte == b'.')
}

/// Whether an identifier may go on with the byte.
#[tactic(auto, using(crate::proofs::Identifiers::is_going_on))]
fn goes_on_identifier(byte: u8) -> bool
    ensures { result ≡ in_name (byte_class byte) }
{
    starts_identifier(byte) | ((b'0' <= byte) & (byte <= b'9'))
}

/// Whether an identifier may go on with each of the bytes.
fn all_go_on(bytes: &[u8]) -> bool
    ensures { result ≡ each in_name bytes.now }
{
    for byte in bytes {
        if !goes_on_identifier(*byte) {
            return false;
        }
    }
    true
}

/// Whether the name stands bare, with no quotes (LangRef, "Identifiers").
pub fn is_identifier(name: &[u8]) -> bool
    ensures { result ≡ is_identifier name.now }
{
    match name.first() {
        Some(first) => starts_identifier(*first) && all_go_on(name),
        None => false,
    }
}

/// An upper case hexadecimal digit.
pub fn hexadecimal(digit: u8) -> u8
    requires { digit < 16 }
    ensures { result ≡ hexadecimal digit }
{
    if digit < 10 {
        b'0' + digit
    } else {
        b'A' - 10 + digit
    }
}

/// Whether the byte stands for itself between quotes.
pub fn is_plain(byte: u8) -> bool
    ensures { result ≡ is_plain byte }
{
    b' ' <= byte && byte <= b'~' && !(byte == b'"' || byte == b'\\')
}

/// Adds a byte of a quoted name.
fn put_quoted_byte(text: &mut Text, byte: u8) -> Result<(), AllocError>
    ensures { OnOk result (text.new ≡ text.old ++ quoted_byte byte) }
{
    if is_plain(byte) {
        text.push(byte)
    } else {
        text.extend(&[b'\\', hexadecimal(byte / 16), hexadecimal(byte % 16)])
    }
}

/// Adds a name, in quotes where it is no identifier.
fn put_name(text: &mut Text, name: &[u8]) -> Result<(), AllocError>
    ensures { OnOk result (text.new ≡ text.old ++ name_spelling name.now) }
{
    if is_identifier(name) {
        return text.extend(name);
    }
    text.push(b'"')?;
    for byte in name {
        put_quoted_byte(text, *byte)?;
    }
    text.push(b'"')
}

/// A name behind a mark.
fn marked(alloc: Global, mark: u8, name: &[u8]) -> Result<Text, AllocError>
    ensures { IfOk result (λ text. text ≡ mark ∷ name_spelling name.now) }
{
    let mut text = Text::new(alloc);
    text.push(mark)?;
    put_name(&mut text, name)?;
    Ok(text)
}

/// The name of a variable, an alias or a function, as canonical text spells it: `@` before it, and quotes round it where it
/// is no identifier (LangRef, "Identifiers").
pub fn spell_global(alloc: Global, name: &[u8]) -> Result<Text, AllocError>
    ensures { IfOk result (λ text. text ≡ spelled_global name.now) }
{
    marked(alloc, b'@', name)
}

/// The name of a struct, with `%` before it.
pub fn spell_struct(alloc: Global, name: &[u8]) -> Result<Text, AllocError>
    ensures { IfOk result (λ text. text ≡ spelled_struct name.now) }
{
    marked(alloc, b'%', name)
}

/// The digits of a number, without leading zeros: `0` for zero.
pub fn spell_number(alloc: Global, number: &Number) -> Result<Text, AllocError>
    ensures { IfOk result (λ text. text ≡ decimal number.now) }
{
    number.digits(alloc)
}

/// The name or the number of a parameter, a result or a block, with `%` before it.
pub fn spell_local(alloc: Global, local: &Local) -> Result<Text, AllocError>
    ensures { IfOk result (λ text. text ≡ spelled_local (local_in local.now)) }
{
    match local {
        Local::Named(written) => spell_struct(alloc, written.name.bytes()),
        Local::Numbered(number, _) => {
            let digits = spell_number(alloc, number)?;
            let mut text = Text::new(alloc);
            text.push(b'%')?;
            text.extend(digits.bytes())?;
            Ok(text)
        }
    }
}
