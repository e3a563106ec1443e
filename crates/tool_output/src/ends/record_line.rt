//! The lines of ends about the records of bitcode.
ghost use Rattle.std.specs.Prelude.{◌≡◌, ◌++◌, codes};
ghost use Rattle.std.specs.Fmt.{decimal};
ghost use Rattle.ir_base.specs.Outside.{Wrote};
ghost use Rattle.tool_output.specs.Ends.Ended.{error_line, line_of_record};

use crate::ends::digits::Digits;
use crate::ends::ended::Ended;
use crate::ends::error_line::{name_of, tell_text};
use ir_base::{Failed, Sink, Text, write_pieces};

// The line of a version, in the input of this name, that is not read.
fn tell_version<'t, E: Sink>(
    errors: &mut E,
    words: &[Text],
    name: &'t [u8],
    version: &'t [u8],
) -> Result<(), Failed>
    ensures { Wrote (E.taken errors.old) (E.taken errors.new) (E.faults errors.old) (E.faults errors.new)
        (error_line words.now (name.now ++ (codes ": version " ++ version.now))) }
{
    write_pieces(
        errors,
        &[name_of(words), b": ", name, b": version ", version, b"\n"],
    )
}

// The line of a record of this code that the block with this id, in the input of this name, does not have.
fn tell_unknown<'t, E: Sink>(
    errors: &mut E,
    words: &[Text],
    name: &'t [u8],
    code: &'t [u8],
    block: &'t [u8],
) -> Result<(), Failed>
    ensures { Wrote (E.taken errors.old) (E.taken errors.new) (E.faults errors.old) (E.faults errors.new)
        (error_line words.now (name.now ++ (codes ": unknown record " ++ (code.now ++ (codes " in block " ++ block.now))))) }
{
    write_pieces(
        errors,
        &[
            name_of(words),
            b": ",
            name,
            b": unknown record ",
            code,
            b" in block ",
            block,
            b"\n",
        ],
    )
}

// The line of the record with this index, in the block with this id of the input of this name, that breaks a rule.
fn tell_bad<'t, E: Sink>(
    errors: &mut E,
    words: &[Text],
    name: &'t [u8],
    index: &'t [u8],
    block: &'t [u8],
    rule: &'t [u8],
) -> Result<(), Failed>
    ensures { Wrote (E.taken errors.old) (E.taken errors.new) (E.faults errors.old) (E.faults errors.new)
        (error_line words.now (name.now ++ (codes ": bad record " ++ (index.now ++ (codes " in block " ++ (block.now ++ (codes ", rule " ++ rule.now))))))) }
{
    write_pieces(
        errors,
        &[
            name_of(words),
            b": ",
            name,
            b": bad record ",
            index,
            b" in block ",
            block,
            b", rule ",
            rule,
            b"\n",
        ],
    )
}

// The same, by the numbers.
fn tell_bad_record<E: Sink>(
    errors: &mut E,
    words: &[Text],
    name: &[u8],
    block: u32,
    index: u64,
    rule: u8,
) -> Result<(), Failed>
    ensures { Wrote (E.taken errors.old) (E.taken errors.new) (E.faults errors.old) (E.faults errors.new)
        (error_line words.now (name.now ++ (codes ": bad record " ++ (decimal index ++ (codes " in block " ++ (decimal block ++ (codes ", rule " ++ decimal rule))))))) }
{
    let index = Digits::of(index);
    let block = Digits::of(u64::from(block));
    let rule = Digits::of(u64::from(rule));
    tell_bad(
        errors,
        words,
        name,
        index.bytes(),
        block.bytes(),
        rule.bytes(),
    )
}

/// The line of an end about the records of an input; of another end nothing.
pub(crate) fn tell_record<E: Sink>(
    errors: &mut E,
    words: &[Text],
    ended: &Ended,
) -> Result<(), Failed>
    ensures { Wrote (E.taken errors.old) (E.taken errors.new) (E.faults errors.old) (E.faults errors.new) (line_of_record words.now ended.now) }
{
    match ended {
        Ended::ForeignProducer(name) => {
            tell_text(errors, words, name.bytes(), b": foreign producer")
        }
        Ended::BadVersion { input, version } => {
            let digits = Digits::of(*version);
            tell_version(errors, words, input.bytes(), digits.bytes())
        }
        Ended::UnknownRecord { input, block, code } => {
            let code = Digits::of(u64::from(*code));
            let block = Digits::of(u64::from(*block));
            tell_unknown(errors, words, input.bytes(), code.bytes(), block.bytes())
        }
        Ended::BadRecord {
            input,
            block,
            index,
            rule,
        } => tell_bad_record(errors, words, input.bytes(), *block, *index, *rule),
        _ => Ok(()),
    }
}
