//! Indices of parts.
ghost use Rattle.std.specs.Prelude.{map};
ghost use Rattle.ir_printer.specs.Gathered.Told.{state};
ghost use Rattle.canonical.specs.Names.{natural};
ghost use Rattle.canonical.specs.Phrase.{listed};
ghost use Rattle.ir_printer.specs.Phrases.Printing.{separator_of, Prints};

use crate::gathered::Gathered;
use crate::phrases::{Separator, put_comma, put_natural};
use ir_base::Sink;

/// Puts numbers, with commas between them.
pub(crate) fn put_indices<S: Sink>(
    out: &mut Gathered,
    sink: &mut S,
    indices: &[u32],
    behind: Separator,
)
    ensures { Prints (state out.old (S.taken sink.old) (S.faults sink.old)) (state out.new (S.taken sink.new) (S.faults sink.new)) (listed (map natural indices.now) (separator_of behind)) }
{
    'parts: for place in 0..indices.len() {
        let others = indices.len() - 1 - place;
        put_natural(out, sink, u64::from(indices[place]), behind.before(others));
        put_comma(out, sink, others);
    }
}
