//! What the tables of words have.
//!
//! A line is `opcode add` or `opcode 1`, and so for each table: the answer is the code and the
//! word, or `none`. `flags` asks for a set by words or by its code, `may` for the flags that an
//! opcode may have, and `name` for the intrinsic of a name.
use ir_tables::{Flag, Flags, Intrinsic, Linkage, Opcode, Predicate, UndefinedKind};
use std::alloc::AllocError;

const FLAGS: [Flag; 9] = [
    Flag::Nuw,
    Flag::Nsw,
    Flag::Exact,
    Flag::Disjoint,
    Flag::Nneg,
    Flag::Samesign,
    Flag::Inbounds,
    Flag::Nusw,
    Flag::Volatile,
];

macro_rules! row_in {
    ($type:ident $key:ident) => {
        match $key.parse::<u16>() {
            Ok(code) => $type::of_code(code),
            Err(_) => $type::of_word($key.as_bytes()),
        }
        .map(|value| (value.code(), value.word()))
    };
}

/// Adds the answer to the line.
pub fn push_answer(text: &mut String, line: &str) -> Result<(), AllocError> {
    write!(text, "{line}:")?;
    let (table, key) = line.split_once(' ').unwrap_or((line, ""));
    match table {
        "flags" => push_set(text, set_of(key)),
        "may" => push_flags_of(text, Opcode::of_word(key.as_bytes())),
        "name" => push_intrinsic(text, Intrinsic::of_name(key.as_bytes())),
        _ => push_row(text, row_of(table, key)),
    }
}

// The row of the table that has the word or the code.
fn row_of(table: &str, key: &str) -> Option<(u16, &'static str)> {
    match table {
        "opcode" => row_in!(Opcode key),
        "predicate" => row_in!(Predicate key),
        "linkage" => row_in!(Linkage key),
        "flag" => row_in!(Flag key),
        "undefined" => row_in!(UndefinedKind key),
        "intrinsic" => row_in!(Intrinsic key),
        _ => None,
    }
}

// The set with the code, or of the words.
fn set_of(key: &str) -> Option<Flags> {
    if let Ok(code) = key.parse::<u16>() {
        return Flags::of_code(code);
    }
    let mut set = Flags::empty();
    for word in key.split_whitespace() {
        set = set.with(Flag::of_word(word.as_bytes())?);
    }
    Some(set)
}

fn push_row(text: &mut String, row: Option<(u16, &'static str)>) -> Result<(), AllocError> {
    match row {
        Some((code, word)) => write!(text, " {code} {word}"),
        None => text.push_str(" none"),
    }
}

fn push_set(text: &mut String, set: Option<Flags>) -> Result<(), AllocError> {
    let Some(set) = set else {
        return text.push_str(" none");
    };
    write!(text, " {}", set.code())?;
    for flag in FLAGS {
        if set.has(flag) {
            write!(text, " {}", flag.word())?;
        }
    }
    Ok(())
}

fn push_flags_of(text: &mut String, opcode: Option<Opcode>) -> Result<(), AllocError> {
    let Some(opcode) = opcode else {
        return text.push_str(" none");
    };
    for flag in FLAGS {
        if opcode.may_have(flag) {
            write!(text, " {}", flag.word())?;
        }
    }
    Ok(())
}

fn push_intrinsic(text: &mut String, found: Option<(Intrinsic, u8)>) -> Result<(), AllocError> {
    match found {
        Some((which, width)) => write!(text, " {} at {width}", which.word()),
        None => text.push_str(" none"),
    }
}
