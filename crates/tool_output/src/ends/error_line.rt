//! The one line that tells an end on standard error.
ghost use Rattle.std.specs.Prelude.{◌≡◌, ◌++◌, codes};
ghost use Rattle.ir_base.specs.Outside.{Wrote};
ghost use Rattle.command_line.specs.Tools.{line_name};
ghost use Rattle.tool_output.specs.declared.ends.ended.Ended.TheVariants.{TooMany};
ghost use Rattle.tool_output.specs.Ends.Ended.{error_line, count_words, fault_words, line_of, number_line, program_line, verdict_line};

use crate::ends::clash_line::tell_clash;
use crate::ends::digits::Digits;
use crate::ends::ended::Ended;
use crate::ends::place_line::tell_placed;
use crate::ends::record_line::tell_record;
use bit_stream::bits::BitFaultKind;
use command_line::line_name;
use ir_base::{Failed, Sink, Text, write_pieces};
use module_arena::CountKind;

// The tool's name, as bytes.
pub(crate) fn name_of<'t>(words: &[Text]) -> &'t [u8]
    ensures { result.now ≡ line_name words.now }
{
    line_name(words).as_bytes()
}

// The line of a fault of this kind at the word with this number.
fn tell_usage<'t, E: Sink>(
    errors: &mut E,
    words: &[Text],
    kind: &'t [u8],
    number: &'t [u8],
) -> Result<(), Failed>
    ensures { Wrote (E.taken errors.old) (E.taken errors.new) (E.faults errors.old) (E.faults errors.new)
        (error_line words.now (codes "usage: " ++ (kind.now ++ (codes " at word " ++ number.now)))) }
{
    write_pieces(
        errors,
        &[
            name_of(words),
            b": usage: ",
            kind,
            b" at word ",
            number,
            b"\n",
        ],
    )
}

// The line of an input that passes a limit of so many bytes.
fn tell_limit<'t, E: Sink>(
    errors: &mut E,
    words: &[Text],
    name: &'t [u8],
    limit: &'t [u8],
) -> Result<(), Failed>
    ensures { Wrote (E.taken errors.old) (E.taken errors.new) (E.faults errors.old) (E.faults errors.new)
        (error_line words.now (name.now ++ (codes ": over " ++ (limit.now ++ codes " bytes")))) }
{
    write_pieces(
        errors,
        &[name_of(words), b": ", name, b": over ", limit, b" bytes\n"],
    )
}

// What there are too many of, in words.
fn count_words(kind: CountKind) -> &'static str
    ensures { result.now ≡ count_words kind }
{
    match kind {
        CountKind::Structs => "structs",
        CountKind::Variables => "variables",
        CountKind::Functions => "functions",
        CountKind::Aliases => "aliases",
        CountKind::AppendedBytes => "appended bytes",
    }
}

// The line of so many of what there are too many of.
fn tell_count<'t, E: Sink>(
    errors: &mut E,
    words: &[Text],
    kind: &'t [u8],
    count: &'t [u8],
) -> Result<(), Failed>
    ensures { Wrote (E.taken errors.old) (E.taken errors.new) (E.faults errors.old) (E.faults errors.new)
        (error_line words.now (codes "too many " ++ (kind.now ++ (codes ": " ++ count.now)))) }
{
    write_pieces(
        errors,
        &[name_of(words), b": too many ", kind, b": ", count, b"\n"],
    )
}

// The line of so many of what there are too many of in the input of this name.
fn tell_count_in<'t, E: Sink>(
    errors: &mut E,
    words: &[Text],
    name: &'t [u8],
    kind: &'t [u8],
    count: &'t [u8],
) -> Result<(), Failed>
    ensures { Wrote (E.taken errors.old) (E.taken errors.new) (E.faults errors.old) (E.faults errors.new)
        (error_line words.now (name.now ++ (codes ": too many " ++ (kind.now ++ (codes ": " ++ count.now))))) }
{
    write_pieces(
        errors,
        &[
            name_of(words),
            b": ",
            name,
            b": too many ",
            kind,
            b": ",
            count,
            b"\n",
        ],
    )
}

// The line of what there are too many of, in the input of this name where it is about one.
fn tell_too_many<E: Sink>(
    errors: &mut E,
    words: &[Text],
    name: &Option<Text>,
    kind: CountKind,
    count: u64,
) -> Result<(), Failed>
    ensures { Wrote (E.taken errors.old) (E.taken errors.new) (E.faults errors.old) (E.faults errors.new) (number_line words.now (TooMany name.now kind count)) }
{
    let digits = Digits::of(count);
    let kind = count_words(kind).as_bytes();
    match name {
        Some(name) => tell_count_in(errors, words, name.bytes(), kind, digits.bytes()),
        None => tell_count(errors, words, kind, digits.bytes()),
    }
}

// The kind of a refused field, in words.
fn fault_words(kind: BitFaultKind) -> &'static str
    ensures { result.now ≡ fault_words kind }
{
    match kind {
        BitFaultKind::BadMagic => "bad magic",
        BitFaultKind::Truncated => "truncated",
        BitFaultKind::BadAbbreviation => "bad abbreviation",
        BitFaultKind::VbrTooLong => "vbr too long",
        BitFaultKind::BadBlockLength => "bad block length",
        BitFaultKind::NestedTooDeep => "nested too deep",
    }
}

// The line of a refused field of an input, by its first bit.
fn tell_bit<'t, E: Sink>(
    errors: &mut E,
    words: &[Text],
    name: &'t [u8],
    bit: &'t [u8],
    kind: &'t [u8],
) -> Result<(), Failed>
    ensures { Wrote (E.taken errors.old) (E.taken errors.new) (E.faults errors.old) (E.faults errors.new)
        (error_line words.now (name.now ++ (codes ": bit " ++ (bit.now ++ (codes ": " ++ kind.now))))) }
{
    write_pieces(
        errors,
        &[
            name_of(words),
            b": ",
            name,
            b": bit ",
            bit,
            b": ",
            kind,
            b"\n",
        ],
    )
}

// The line of a function that is too large, in the module of the input of this name.
fn tell_function<'t, E: Sink>(
    errors: &mut E,
    words: &[Text],
    name: &'t [u8],
    function: &'t [u8],
    size: &'t [u8],
) -> Result<(), Failed>
    ensures { Wrote (E.taken errors.old) (E.taken errors.new) (E.faults errors.old) (E.faults errors.new)
        (error_line words.now (name.now ++ (codes ": function too large: " ++ (function.now ++ (codes ", " ++ size.now))))) }
{
    write_pieces(
        errors,
        &[
            name_of(words),
            b": ",
            name,
            b": function too large: ",
            function,
            b", ",
            size,
            b"\n",
        ],
    )
}

// The line of a rule of validity that does not hold first, in the module of the input of this name.
fn tell_rule<'t, E: Sink>(
    errors: &mut E,
    words: &[Text],
    name: &'t [u8],
    rule: &'t [u8],
    entity: &'t [u8],
) -> Result<(), Failed>
    ensures { Wrote (E.taken errors.old) (E.taken errors.new) (E.faults errors.old) (E.faults errors.new)
        (error_line words.now (name.now ++ (codes ": invalid V" ++ (rule.now ++ (codes " at " ++ entity.now))))) }
{
    write_pieces(
        errors,
        &[
            name_of(words),
            b": ",
            name,
            b": invalid V",
            rule,
            b" at ",
            entity,
            b"\n",
        ],
    )
}

// A line with a text behind the tool's name, and a name behind that.
pub(crate) fn tell_text<'t, E: Sink>(
    errors: &mut E,
    words: &[Text],
    text: &'t [u8],
    name: &'t [u8],
) -> Result<(), Failed>
    ensures { Wrote (E.taken errors.old) (E.taken errors.new) (E.faults errors.old) (E.faults errors.new)
        (error_line words.now (text.now ++ name.now)) }
{
    write_pieces(errors, &[name_of(words), b": ", text, name, b"\n"])
}

// The line of a program that has no end of its own; of another end nothing.
fn tell_program<E: Sink>(errors: &mut E, words: &[Text], ended: &Ended) -> Result<(), Failed>
    ensures { Wrote (E.taken errors.old) (E.taken errors.new) (E.faults errors.old) (E.faults errors.new) (program_line words.now ended.now) }
{
    match ended {
        Ended::StepsUsed => tell_text(errors, words, b"steps used up", b""),
        Ended::Undefined(kind) => {
            tell_text(errors, words, b"undefined: ", kind.word().as_bytes())
        }
        Ended::StackLimit => tell_text(errors, words, b"stack limit", b""),
        Ended::MemoryLimit => tell_text(errors, words, b"memory limit", b""),
        Ended::Unresolved(name) => tell_text(errors, words, b"unresolved ", name.bytes()),
        Ended::NoMain => tell_text(errors, words, b"no main", b""),
        _ => Ok(()),
    }
}

// The line of an end that one number tells; of another end nothing.
fn tell_numbered<E: Sink>(errors: &mut E, words: &[Text], ended: &Ended) -> Result<(), Failed>
    ensures { Wrote (E.taken errors.old) (E.taken errors.new) (E.faults errors.old) (E.faults errors.new) (number_line words.now ended.now) }
{
    match ended {
        Ended::Usage { kind, word } => {
            let digits = Digits::of(*word);
            tell_usage(errors, words, kind.words().as_bytes(), digits.bytes())
        }
        Ended::InputTooLarge { input, limit } => {
            let digits = Digits::of(*limit);
            tell_limit(errors, words, input.bytes(), digits.bytes())
        }
        Ended::TooMany { input, kind, count } => tell_too_many(errors, words, input, *kind, *count),
        Ended::BitFault { input, fault } => {
            let digits = Digits::of(fault.bit);
            let kind = fault_words(fault.kind).as_bytes();
            tell_bit(errors, words, input.bytes(), digits.bytes(), kind)
        }
        _ => Ok(()),
    }
}

// The line of a module that is refused; of another end nothing.
fn tell_verdict<E: Sink>(errors: &mut E, words: &[Text], ended: &Ended) -> Result<(), Failed>
    ensures { Wrote (E.taken errors.old) (E.taken errors.new) (E.faults errors.old) (E.faults errors.new) (verdict_line words.now ended.now) }
{
    match ended {
        Ended::FunctionTooLarge {
            input,
            function,
            size,
        } => {
            let digits = Digits::of(*size);
            tell_function(
                errors,
                words,
                input.bytes(),
                function.bytes(),
                digits.bytes(),
            )
        }
        Ended::Invalid {
            input,
            rule,
            entity,
        } => {
            let digits = Digits::of(u64::from(*rule));
            tell_rule(errors, words, input.bytes(), digits.bytes(), entity.bytes())
        }
        _ => Ok(()),
    }
}

/// Writes the line of the end, by pieces and without memory. A sink that fails has taken a front of it.
pub fn tell<E: Sink>(errors: &mut E, words: &[Text], ended: &Ended)
    ensures { Wrote (E.taken errors.old) (E.taken errors.new) (E.faults errors.old) (E.faults errors.new) (line_of words.now ended.now) }
{
    let _ = match ended {
        Ended::Ok | Ended::Exit(_) => Ok(()),
        Ended::StepsUsed
        | Ended::Undefined(_)
        | Ended::StackLimit
        | Ended::MemoryLimit
        | Ended::Unresolved(_)
        | Ended::NoMain => tell_program(errors, words, ended),
        Ended::Usage { .. }
        | Ended::InputTooLarge { .. }
        | Ended::TooMany { .. }
        | Ended::BitFault { .. } => tell_numbered(errors, words, ended),
        Ended::CannotRead(name) => tell_text(errors, words, b"cannot read ", name.bytes()),
        Ended::CannotWrite(name) => tell_text(errors, words, b"cannot write ", name.bytes()),
        Ended::Conflict(clash) => tell_clash(errors, words, clash),
        Ended::FunctionTooLarge { .. } | Ended::Invalid { .. } => {
            tell_verdict(errors, words, ended)
        }
        Ended::ForeignProducer(_)
        | Ended::BadVersion { .. }
        | Ended::UnknownRecord { .. }
        | Ended::BadRecord { .. } => tell_record(errors, words, ended),
        Ended::NoSuchSymbol(symbol) => tell_text(errors, words, b"no symbol ", symbol.bytes()),
        Ended::Memory => tell_text(errors, words, b"out of memory", b""),
        Ended::BadByte { .. }
        | Ended::NoItemHere { .. }
        | Ended::LeftOutWord { .. }
        | Ended::UnknownName { .. }
        | Ended::Duplicate { .. }
        | Ended::WrongNumber { .. }
        | Ended::ConstantRange { .. }
        | Ended::TooDeep { .. }
        | Ended::TooLarge { .. }
        | Ended::SelfContaining { .. } => tell_placed(errors, words, ended),
    };
}
