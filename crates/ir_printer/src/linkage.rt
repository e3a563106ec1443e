//! Linkages (LangRef, "Linkage Types").
ghost use Rattle.ir_printer.specs.Gathered.Told.{state};
ghost use Rattle.ir_lexer.specs.Pieces.{Space};
ghost use Rattle.ir_tables.specs.Linkage.{linkage_word};
ghost use Rattle.canonical.specs.Canonical.{linkage_phrase};
ghost use Rattle.canonical.specs.Phrase.{word};
ghost use Rattle.ir_printer.specs.Phrases.Printing.{Prints};

use crate::gathered::Gathered;
use crate::phrases::{Separator, put_token};
use ir_base::Sink;
use ir_tables::Linkage;

/// Puts the word of a linkage, and a space.
pub(crate) fn put_linkage_word<S: Sink>(out: &mut Gathered, sink: &mut S, linkage: Linkage)
    ensures { Prints (state out.old (S.taken sink.old) (S.faults sink.old)) (state out.new (S.taken sink.new) (S.faults sink.new)) (word (linkage_word linkage) Space) }
{
    put_token(out, sink, linkage.word().as_bytes(), Separator::Space);
}

/// Puts the word of a linkage, and a space, where it is written: external is not.
pub(crate) fn put_linkage<S: Sink>(out: &mut Gathered, sink: &mut S, linkage: Linkage)
    ensures { Prints (state out.old (S.taken sink.old) (S.faults sink.old)) (state out.new (S.taken sink.new) (S.faults sink.new)) (linkage_phrase linkage Space) }
{
    match linkage {
        Linkage::External => {}
        _ => put_linkage_word(out, sink, linkage),
    }
}
