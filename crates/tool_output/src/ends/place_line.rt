//! The lines of ends at a place of an input.
ghost use Rattle.std.specs.Prelude.{◌≡◌, ◌++◌, codes};
ghost use Rattle.ir_base.specs.Outside.{Wrote};
ghost use Rattle.tool_output.specs.declared.ends.ended.Ended.TheVariants.{Duplicate, WrongNumber};
ghost use Rattle.tool_output.specs.Ends.Ended.{error_line, located, located_by, name_line, placed_line};

use crate::ends::digits::Digits;
use crate::ends::ended::Ended;
use crate::ends::error_line::name_of;
use ir_base::{Failed, Place, Sink, Text, write_pieces};

// The line of a text, and of what stands behind it, about this line and column of the input of this name.
fn tell_located<'t, E: Sink>(
    errors: &mut E,
    words: &[Text],
    name: &'t [u8],
    line: &'t [u8],
    column: &'t [u8],
    text: &'t [u8],
    behind: &'t [u8],
) -> Result<(), Failed>
    ensures { Wrote (E.taken errors.old) (E.taken errors.new) (E.faults errors.old) (E.faults errors.new)
        (error_line words.now (located_by name.now line.now column.now (text.now ++ behind.now))) }
{
    write_pieces(
        errors,
        &[
            name_of(words),
            b": ",
            name,
            b":",
            line,
            b":",
            column,
            b": ",
            text,
            behind,
            b"\n",
        ],
    )
}

// The line of a text, and of what stands behind it, about a place in the input of this name.
fn tell_place<'t, E: Sink>(
    errors: &mut E,
    words: &[Text],
    name: &'t Text,
    place: Place,
    text: &'t [u8],
    behind: &'t [u8],
) -> Result<(), Failed>
    ensures { Wrote (E.taken errors.old) (E.taken errors.new) (E.faults errors.old) (E.faults errors.new)
        (error_line words.now (located name.now place (text.now ++ behind.now))) }
{
    let line = Digits::of(u64::from(place.line));
    let column = Digits::of(u64::from(place.column));
    tell_located(
        errors,
        words,
        name.bytes(),
        line.bytes(),
        column.bytes(),
        text,
        behind,
    )
}

// The line of what is named at this line and column of the input of this name, and was first at another.
fn tell_first<'t, E: Sink>(
    errors: &mut E,
    words: &[Text],
    name: &'t [u8],
    line: &'t [u8],
    column: &'t [u8],
    first_line: &'t [u8],
    first_column: &'t [u8],
) -> Result<(), Failed>
    ensures { Wrote (E.taken errors.old) (E.taken errors.new) (E.faults errors.old) (E.faults errors.new)
        (error_line words.now (located_by name.now line.now column.now (codes "duplicate, first at " ++ (first_line.now ++ (codes ":" ++ first_column.now))))) }
{
    write_pieces(
        errors,
        &[
            name_of(words),
            b": ",
            name,
            b":",
            line,
            b":",
            column,
            b": duplicate, first at ",
            first_line,
            b":",
            first_column,
            b"\n",
        ],
    )
}

// The line of what is named twice, at these places of the input of this name.
fn tell_duplicate<E: Sink>(
    errors: &mut E,
    words: &[Text],
    name: &Text,
    place: Place,
    first: Place,
) -> Result<(), Failed>
    ensures { Wrote (E.taken errors.old) (E.taken errors.new) (E.faults errors.old) (E.faults errors.new) (placed_line words.now (Duplicate name.now place first)) }
{
    let line = Digits::of(u64::from(place.line));
    let column = Digits::of(u64::from(place.column));
    let first_line = Digits::of(u64::from(first.line));
    let first_column = Digits::of(u64::from(first.column));
    tell_first(
        errors,
        words,
        name.bytes(),
        line.bytes(),
        column.bytes(),
        first_line.bytes(),
        first_column.bytes(),
    )
}

// The line of a number at this line and column of the input of this name, where the next one is another.
fn tell_next<'t, E: Sink>(
    errors: &mut E,
    words: &[Text],
    name: &'t [u8],
    line: &'t [u8],
    column: &'t [u8],
    next: &'t [u8],
    found: &'t [u8],
) -> Result<(), Failed>
    ensures { Wrote (E.taken errors.old) (E.taken errors.new) (E.faults errors.old) (E.faults errors.new)
        (error_line words.now (located_by name.now line.now column.now (codes "number " ++ (next.now ++ (codes " expected, " ++ (found.now ++ codes " found")))))) }
{
    write_pieces(
        errors,
        &[
            name_of(words),
            b": ",
            name,
            b":",
            line,
            b":",
            column,
            b": number ",
            next,
            b" expected, ",
            found,
            b" found\n",
        ],
    )
}

// The line of a number at this place of the input of this name, which is not the next one.
fn tell_number<E: Sink>(
    errors: &mut E,
    words: &[Text],
    name: &Text,
    place: Place,
    next: u64,
    found: &Text,
) -> Result<(), Failed>
    ensures { Wrote (E.taken errors.old) (E.taken errors.new) (E.faults errors.old) (E.faults errors.new) (placed_line words.now (WrongNumber name.now place next found.now)) }
{
    let line = Digits::of(u64::from(place.line));
    let column = Digits::of(u64::from(place.column));
    let next = Digits::of(next);
    tell_next(
        errors,
        words,
        name.bytes(),
        line.bytes(),
        column.bytes(),
        next.bytes(),
        found.bytes(),
    )
}

// The line of an end about a name or a number at a place of an input; of another end nothing.
fn tell_named<E: Sink>(errors: &mut E, words: &[Text], ended: &Ended) -> Result<(), Failed>
    ensures { Wrote (E.taken errors.old) (E.taken errors.new) (E.faults errors.old) (E.faults errors.new) (name_line words.now ended.now) }
{
    match ended {
        Ended::UnknownName {
            input,
            place,
            spelled,
        } => {
            tell_place(
                errors,
                words,
                input,
                *place,
                b"unknown name ",
                spelled.bytes(),
            )
        }
        Ended::Duplicate {
            input,
            place,
            first,
        } => tell_duplicate(errors, words, input, *place, *first),
        Ended::WrongNumber {
            input,
            place,
            next,
            found,
        } => tell_number(errors, words, input, *place, *next, found),
        _ => Ok(()),
    }
}

/// The line of an end at a place of an input; of another end nothing.
pub(crate) fn tell_placed<E: Sink>(
    errors: &mut E,
    words: &[Text],
    ended: &Ended,
) -> Result<(), Failed>
    ensures { Wrote (E.taken errors.old) (E.taken errors.new) (E.faults errors.old) (E.faults errors.new) (placed_line words.now ended.now) }
{
    match ended {
        Ended::BadByte { input, place } => {
            tell_place(errors, words, input, *place, b"bad byte", b"")
        }
        Ended::NoItemHere { input, place } => {
            tell_place(errors, words, input, *place, b"no item here", b"")
        }
        Ended::LeftOutWord { input, place, word } => {
            tell_place(errors, words, input, *place, b"left out: ", word.bytes())
        }
        Ended::UnknownName { .. } | Ended::Duplicate { .. } | Ended::WrongNumber { .. } => {
            tell_named(errors, words, ended)
        }
        Ended::ConstantRange { input, place } => {
            tell_place(errors, words, input, *place, b"constant out of range", b"")
        }
        Ended::TooDeep { input, place } => {
            tell_place(errors, words, input, *place, b"too deep", b"")
        }
        Ended::TooLarge { input, place } => {
            tell_place(errors, words, input, *place, b"too large", b"")
        }
        Ended::SelfContaining { input, place } => {
            tell_place(errors, words, input, *place, b"contains itself", b"")
        }
        _ => Ok(()),
    }
}
