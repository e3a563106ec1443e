//! The brackets round constants.
ghost use Rattle.std.specs.Prelude.{◌≡◌};
ghost use Rattle.ir_printer.specs.Gathered.Told.{state};
ghost use Rattle.module_arena.specs.View.{brackets_view};
ghost use Rattle.ir_printer.specs.Phrases.Printing.{separator_of, Prints};
ghost use Rattle.ir_printer.specs.Phrases.Parts.{bracket_opening, bracket_closing, last_in};

use crate::gathered::Gathered;
use crate::phrases::separator::Separator;
use crate::phrases::tokens::put_token;
use crate::phrases::types::{put_closing, put_opening};
use ir_base::Sink;
use module_arena::Brackets;

/// Puts the bracket before so many constants.
pub(crate) fn put_bracket<S: Sink>(
    out: &mut Gathered,
    sink: &mut S,
    brackets: Brackets,
    count: usize,
)
    ensures { Prints (state out.old (S.taken sink.old) (S.faults sink.old)) (state out.new (S.taken sink.new) (S.faults sink.new)) (bracket_opening (brackets_view brackets) count) }
{
    match brackets {
        Brackets::Square => put_token(out, sink, b"[", Separator::Nothing),
        Brackets::Braces => put_opening(out, sink, false, count),
        Brackets::Packed => put_opening(out, sink, true, count),
    }
}

/// Puts the bracket behind constants.
pub(crate) fn put_bracket_behind<S: Sink>(
    out: &mut Gathered,
    sink: &mut S,
    brackets: Brackets,
    behind: Separator,
)
    ensures { Prints (state out.old (S.taken sink.old) (S.faults sink.old)) (state out.new (S.taken sink.new) (S.faults sink.new)) (bracket_closing (brackets_view brackets) (separator_of behind)) }
{
    match brackets {
        Brackets::Square => put_token(out, sink, b"]", behind),
        Brackets::Braces => put_closing(out, sink, false, behind),
        Brackets::Packed => put_closing(out, sink, true, behind),
    }
}

/// What stands behind the last constant in brackets.
pub(crate) fn last_in(brackets: Brackets) -> Separator
    ensures { separator_of result ≡ last_in (brackets_view brackets) }
{
    match brackets {
        Brackets::Square => Separator::Nothing,
        Brackets::Braces => Separator::Space,
        Brackets::Packed => Separator::Space,
    }
}
