//! Alignments.
ghost use Rattle.std.specs.Prelude.{◌≡◌};
ghost use Rattle.ir_printer.specs.Gathered.Told.{state};
ghost use Rattle.ir_printer.specs.Phrases.Printing.{separator_of, Prints};
ghost use Rattle.ir_printer.specs.Instructions.Named.{before, alignment_pieces};

use crate::gathered::Gathered;
use crate::phrases::{Separator, put_natural, put_token};
use ir_base::Sink;

/// What stands before an alignment.
pub fn before_alignment(alignment: Option<u32>, behind: Separator) -> Separator
    ensures { separator_of result ≡ before alignment (separator_of behind) }
{
    match alignment {
        Some(_) => Separator::Nothing,
        None => behind,
    }
}

/// Puts an alignment, where there is one, behind a comma.
pub fn put_alignment<S: Sink>(
    out: &mut Gathered,
    sink: &mut S,
    alignment: Option<u32>,
    behind: Separator,
)
    ensures { Prints (state out.old (S.taken sink.old) (S.faults sink.old)) (state out.new (S.taken sink.new) (S.faults sink.new)) (alignment_pieces alignment (separator_of behind)) }
{
    match alignment {
        Some(bytes) => {
            put_token(out, sink, b",", Separator::Space);
            put_token(out, sink, b"align", Separator::Space);
            put_natural(out, sink, u64::from(bytes), behind);
        }
        None => {}
    }
}
