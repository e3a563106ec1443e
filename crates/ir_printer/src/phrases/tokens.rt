//! Single tokens.
ghost use Rattle.ir_printer.specs.Gathered.Told.{state};
ghost use Rattle.canonical.specs.Phrase.{token};
ghost use Rattle.ir_lexer.specs.declared.token.TokenKind.{TokenKind};
ghost use Rattle.ir_printer.specs.Phrases.Printing.{separator_of, comma_before, Prints};

use crate::gathered::Gathered;
use crate::phrases::separator::Separator;
use ir_base::Sink;

/// Puts a token with this spelling.
pub fn put_token<S: Sink>(out: &mut Gathered, sink: &mut S, spelling: &[u8], behind: Separator)
    ensures { (kind : TokenKind) → Prints (state out.old (S.taken sink.old) (S.faults sink.old)) (state out.new (S.taken sink.new) (S.faults sink.new)) (token kind spelling.now (separator_of behind)) }
{
    out.put(sink, spelling);
    out.put(sink, behind.bytes());
}

/// Puts the comma behind a part of a list, where others follow.
pub fn put_comma<S: Sink>(out: &mut Gathered, sink: &mut S, others: usize)
    ensures { Prints (state out.old (S.taken sink.old) (S.faults sink.old)) (state out.new (S.taken sink.new) (S.faults sink.new)) (comma_before others) }
{
    if others > 0 {
        put_token(out, sink, b",", Separator::Space);
    }
}
