//! What tokens mean.
use crate::word::shown;
use ir_base::Text;
use ir_terminals::{Cursor, Fault, Local, Number, Terminal};
use std::alloc::{AllocError, Global};

/// What a token means.
#[derive(Drop)]
enum Meaning {
    /// No more than its class says.
    Nothing,
    /// The bytes of a name or a string.
    Bytes(Text),
    /// An integer: whether it is negative, and its magnitude.
    Integer(bool, Number),
    /// The number of a local value.
    Local(Number),
    /// The number that its terminal has.
    Code(u16),
}

/// Takes the next token, and adds what it means.
pub fn push_meaning(
    text: &mut String,
    alloc: Global,
    cursor: &mut Cursor,
) -> Result<(), AllocError> {
    match meaning_of(alloc, cursor) {
        Ok(Meaning::Nothing) => Ok(()),
        Ok(Meaning::Bytes(bytes)) => push_bytes(text, bytes.bytes()),
        Ok(Meaning::Integer(negative, number)) => {
            text.push_str(if negative { " = -" } else { " = " })?;
            push_number(text, alloc, &number)
        }
        Ok(Meaning::Local(number)) => {
            text.push_str(" = number ")?;
            push_number(text, alloc, &number)
        }
        Ok(Meaning::Code(code)) => write!(text, " = {code}"),
        Err(_) => text.push_str(" refused"),
    }
}

fn meaning_of(alloc: Global, cursor: &mut Cursor) -> Result<Meaning, Fault> {
    let Some(terminal) = cursor.terminal() else {
        return Ok(Meaning::Nothing);
    };
    match terminal {
        Terminal::Integer => {
            let integer = cursor.integer()?;
            Ok(Meaning::Integer(integer.negative, integer.magnitude))
        }
        Terminal::GlobalName => {
            let name = cursor.global_name()?.name.to_name(alloc)?;
            Ok(Meaning::Bytes(name.text().copy(alloc)?))
        }
        Terminal::Local => local_meaning(alloc, cursor.local()?),
        Terminal::Label => local_meaning(alloc, cursor.label()?),
        Terminal::Quoted => Ok(Meaning::Bytes(cursor.quoted()?.text.to_text(alloc)?)),
        Terminal::ByteString => Ok(Meaning::Bytes(cursor.byte_string()?.text.to_text(alloc)?)),
        Terminal::Linkage(_) => Ok(Meaning::Code(cursor.linkage()?.code())),
        Terminal::Flag(_) => Ok(Meaning::Code(cursor.flag()?.code())),
        Terminal::Predicate(_) => Ok(Meaning::Code(cursor.predicate()?.code())),
        _ => taken_meaning(cursor, terminal),
    }
}

fn local_meaning(alloc: Global, local: Local) -> Result<Meaning, Fault> {
    match local {
        Local::Named(placed) => Ok(Meaning::Bytes(Text::from_slice(alloc, placed.name.bytes())?)),
        Local::Numbered(number, _) => Ok(Meaning::Local(number)),
    }
}

// Takes the next token, which is this terminal.
fn taken_meaning(cursor: &mut Cursor, terminal: Terminal) -> Result<Meaning, Fault> {
    cursor.take_class(terminal)?;
    match terminal {
        Terminal::IntegerType(width) => Ok(Meaning::Code(u16::from(width))),
        Terminal::Opcode(opcode) => Ok(Meaning::Code(opcode.code())),
        _ => Ok(Meaning::Nothing),
    }
}

// Adds bytes: those that ASCII prints but for a backslash as they are, others as `\xx`.
fn push_bytes(text: &mut String, bytes: &[u8]) -> Result<(), AllocError> {
    text.push_str(" = ")?;
    for byte in bytes {
        push_byte(text, *byte)?;
    }
    Ok(())
}

fn push_byte(text: &mut String, byte: u8) -> Result<(), AllocError> {
    if byte >= 32 && byte < 127 && byte != b'\\' {
        text.push(char::from(byte))
    } else {
        write!(text, "\\{byte:02x}")
    }
}

// Adds a number, and again where it fits 64 and 128 bits.
fn push_number(text: &mut String, alloc: Global, number: &Number) -> Result<(), AllocError> {
    let digits = number.digits(alloc)?;
    text.push_str(shown(digits.bytes()))?;
    push_value(text, number.to_u64().map(u128::from))?;
    push_value(text, number.to_u128())
}

fn push_value(text: &mut String, value: Option<u128>) -> Result<(), AllocError> {
    match value {
        Some(value) => write!(text, " {value}"),
        None => text.push_str(" -"),
    }
}
