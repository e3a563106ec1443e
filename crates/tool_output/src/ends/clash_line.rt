//! The line of two entries that do not go together.
ghost use Rattle.std.specs.Prelude.{◌≡◌, ◌++◌, codes};
ghost use Rattle.ir_base.specs.Outside.{Wrote};
ghost use Rattle.tool_output.specs.Ends.Ended.{clash_words, conflict_words, error_line};

use crate::ends::clash::Clash;
use crate::ends::error_line::name_of;
use ir_base::{Failed, Sink, Text, write_pieces};
use linkage_rules::ConflictKind;

// What is wrong with two entries of one name, in words.
fn conflict_words(kind: ConflictKind) -> &'static str
    ensures { result.now ≡ conflict_words kind }
{
    match kind {
        ConflictKind::TwoStrong => "two strong",
        ConflictKind::FunctionAndVariable => "function and variable",
        ConflictKind::AppendingAndPlain => "appending and plain",
        ConflictKind::ElementShape => "element shape",
        ConflictKind::Constness => "constness",
    }
}

// The line of entries of this name in two inputs that do not go together.
fn tell_conflict<'t, E: Sink>(
    errors: &mut E,
    words: &[Text],
    kind: &'t [u8],
    symbol: &'t [u8],
    one: &'t [u8],
    other: &'t [u8],
) -> Result<(), Failed>
    ensures { Wrote (E.taken errors.old) (E.taken errors.new) (E.faults errors.old) (E.faults errors.new)
        (error_line words.now (codes "conflict: " ++ (kind.now ++ (codes ": " ++ (symbol.now ++ (codes " in " ++ (one.now ++ (codes " and " ++ other.now)))))))) }
{
    write_pieces(
        errors,
        &[
            name_of(words),
            b": conflict: ",
            kind,
            b": ",
            symbol,
            b" in ",
            one,
            b" and ",
            other,
            b"\n",
        ],
    )
}

/// The line of two entries that do not go together.
pub(crate) fn tell_clash<E: Sink>(
    errors: &mut E,
    words: &[Text],
    clash: &Clash,
) -> Result<(), Failed>
    ensures { Wrote (E.taken errors.old) (E.taken errors.new) (E.faults errors.old) (E.faults errors.new) (error_line words.now (clash_words clash.now)) }
{
    tell_conflict(
        errors,
        words,
        conflict_words(clash.kind).as_bytes(),
        clash.symbol.bytes(),
        clash.one.name.bytes(),
        clash.other.name.bytes(),
    )
}
