//! What the tokens of texts are.
//!
//! Texts stand one after another, with a line `====` between two. The answer to a text is each of
//! its tokens with its place, kind, class, spelling and meaning, and whether the language leaves
//! it out; of a long text only the last one. A text that begins with `?` and a mark has brackets
//! after those, and the answer is whether they are skipped. The first line has sizes in bytes.
mod kinds;
mod meanings;

ghost use Rattle.std.specs.Prelude.{◌≤◌, length};

use crate::word::shown;
use ir_lexer::{LARGEST, Token};
use ir_terminals::{Cursor, Integer, Limits, Local, Number, PlacedName, PlacedText, Terminal};
use kinds::kind_word;
use meanings::push_meaning;
use std::alloc::{AllocError, Global};
use std::mem::size_of;
use type_table::NESTING_LIMIT;

/// The most tokens of a text that are printed one by one.
const FEW: usize = 40;

const LIMITS: Limits = Limits {
    nesting: NESTING_LIMIT,
    with_left_out: false,
};

/// Adds how many bytes the types have that a module is made of.
pub fn push_sizes(text: &mut String) -> Result<(), AllocError> {
    let (token, number) = (size_of::<Token>(), size_of::<Number>());
    let (integer, name) = (size_of::<Integer>(), size_of::<PlacedName>());
    let (placed, local) = (size_of::<PlacedText>(), size_of::<Local>());
    let some = size_of::<Option<Local>>();
    write!(
        text,
        "Token {token}, Number {number}, Integer {integer}, PlacedName {name}, "
    )?;
    write!(
        text,
        "PlacedText {placed}, Local {local}, Option<Local> {some}\n"
    )
}

/// Adds the answer to a text.
pub fn push_answer(text: &mut String, alloc: Global, given: &[u8]) -> Result<(), AllocError> {
    match given {
        [b'?', mark, brackets @ ..] => push_brackets(text, alloc, *mark, brackets),
        _ if given.len() > LARGEST => text.push_str("too large\n"),
        _ => push_tokens(text, alloc, given),
    }
}

fn push_tokens(text: &mut String, alloc: Global, given: &[u8]) -> Result<(), AllocError>
    requires { length given.now ≤ LARGEST }
{
    let count = count_of(alloc, given);
    let mut cursor = Cursor::new(alloc, given, LIMITS);
    for number in 0..count {
        if count <= FEW || number + 1 == count {
            push_token(text, alloc, &mut cursor)?;
        } else {
            take_token(&mut cursor);
        }
    }
    push_end(text, &cursor)
}

// How many tokens the text has.
fn count_of(alloc: Global, given: &[u8]) -> usize
    requires { length given.now ≤ LARGEST }
{
    let mut cursor = Cursor::new(alloc, given, LIMITS);
    for _ in 0..given.len() {
        take_token(&mut cursor);
    }
    cursor.taken()
}

// Goes over the next token, where there is one.
fn take_token(cursor: &mut Cursor) {
    if let Some(terminal) = cursor.terminal() {
        let _ = cursor.take_class(terminal);
    }
}

// Takes the next token, and adds a line with all that it is.
fn push_token(text: &mut String, alloc: Global, cursor: &mut Cursor) -> Result<(), AllocError> {
    push_spelling(text, cursor)?;
    let left_out = cursor.is_left_out();
    push_meaning(text, alloc, cursor)?;
    text.push_str(if left_out { " (left out)\n" } else { "\n" })
}

fn push_spelling(text: &mut String, cursor: &Cursor) -> Result<(), AllocError> {
    let place = cursor.place();
    let kind = cursor.kind().map_or("no token", kind_word);
    let class = cursor.terminal().map_or(0, Terminal::code);
    let spelling = shown(cursor.spelling());
    write!(
        text,
        "{}:{} {kind} {class} {spelling}",
        place.line, place.column
    )
}

// Adds where the tokens end, and whether they end at a byte that begins none.
fn push_end(text: &mut String, cursor: &Cursor) -> Result<(), AllocError> {
    let place = cursor.place();
    let what = if cursor.is_bad() { "bad byte" } else { "end" };
    let count = cursor.taken();
    write!(
        text,
        "{}:{} {what} behind {count}\n",
        place.line, place.column
    )
}

// The opening bracket that a mark is.
fn opening_of(mark: u8) -> Terminal {
    match mark {
        b'(' => Terminal::OpenParenthesis,
        b'[' => Terminal::OpenBracket,
        b'{' => Terminal::OpenBrace,
        _ => Terminal::Less,
    }
}

// Adds whether the brackets that the text begins with are skipped, from this mark on or from brace
// to brace, and the place of the cursor after that.
fn push_brackets(
    text: &mut String,
    alloc: Global,
    mark: u8,
    given: &[u8],
) -> Result<(), AllocError> {
    if given.len() > LARGEST {
        return text.push_str("too large\n");
    }
    let mut cursor = Cursor::new(alloc, given, LIMITS);
    let skipped = match mark {
        b'}' => cursor.skip_braced(),
        _ => cursor.skip_brackets(opening_of(mark)),
    };
    let what = if skipped.is_ok() {
        "skipped"
    } else {
        "refused"
    };
    let place = cursor.place();
    write!(text, "{}:{} {what}\n", place.line, place.column)
}
