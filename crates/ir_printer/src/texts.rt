//! The texts of a module: where it came from, and for what machine it is.
ghost use Rattle.std.specs.Prelude.{codes};
ghost use Rattle.ir_printer.specs.Gathered.Told.{state};
ghost use Rattle.ir_printer.specs.Phrases.Printing.{separator_of, Prints};
ghost use Rattle.canonical.specs.Phrase.{word};
ghost use Rattle.ir_printer.specs.Listed.{text_line, target};

use crate::gathered::Gathered;
use crate::phrases::{Separator, put_text, put_token};
use ir_base::Sink;

/// Puts `source_filename`, with that separator behind it.
pub(crate) fn put_source<S: Sink>(out: &mut Gathered, sink: &mut S, text: &[u8], behind: Separator)
    ensures { Prints (state out.old (S.taken sink.old) (S.faults sink.old)) (state out.new (S.taken sink.new) (S.faults sink.new)) (text_line (word (codes "source_filename")) text.now (separator_of behind)) }
{
    put_token(out, sink, b"source_filename", Separator::Space);
    put_token(out, sink, b"=", Separator::Space);
    put_text(out, sink, text, behind);
}

/// Puts `target` with this word: `datalayout` or `triple`, with that separator behind it.
pub(crate) fn put_target<S: Sink>(
    out: &mut Gathered,
    sink: &mut S,
    what: &[u8],
    text: &[u8],
    behind: Separator,
)
    ensures { Prints (state out.old (S.taken sink.old) (S.faults sink.old)) (state out.new (S.taken sink.new) (S.faults sink.new)) (text_line (target what.now) text.now (separator_of behind)) }
{
    put_token(out, sink, b"target", Separator::Space);
    put_token(out, sink, what, Separator::Space);
    put_token(out, sink, b"=", Separator::Space);
    put_text(out, sink, text, behind);
}
