//! Flags, each with a space behind it.
ghost use Rattle.ir_printer.specs.Gathered.Told.{state};
ghost use Rattle.ir_lexer.specs.Pieces.{Space};
ghost use Rattle.canonical.specs.Constants.{flags_phrase, address_flags_phrase};
ghost use Rattle.ir_printer.specs.Phrases.Printing.{Prints};
ghost use Rattle.ir_printer.specs.Phrases.Parts.{flag_pieces};

use crate::gathered::Gathered;
use crate::phrases::separator::Separator;
use crate::phrases::tokens::put_token;
use ir_base::Sink;
use ir_tables::{Flag, Flags};

/// Puts a flag, where the set has it.
fn put_flag<S: Sink>(out: &mut Gathered, sink: &mut S, flags: Flags, flag: Flag)
    ensures { Prints (state out.old (S.taken sink.old) (S.faults sink.old)) (state out.new (S.taken sink.new) (S.faults sink.new)) (flag_pieces flags flag) }
{
    if flags.has(flag) {
        put_token(out, sink, flag.word().as_bytes(), Separator::Space);
    }
}

/// Puts the flags of a set, in the order of the table.
pub fn put_flags<S: Sink>(out: &mut Gathered, sink: &mut S, flags: Flags)
    ensures { Prints (state out.old (S.taken sink.old) (S.faults sink.old)) (state out.new (S.taken sink.new) (S.faults sink.new)) (flags_phrase flags Space) }
{
    put_flag(out, sink, flags, Flag::Nuw);
    put_flag(out, sink, flags, Flag::Nsw);
    put_flag(out, sink, flags, Flag::Exact);
    put_flag(out, sink, flags, Flag::Disjoint);
    put_flag(out, sink, flags, Flag::Nneg);
    put_flag(out, sink, flags, Flag::Samesign);
    put_flag(out, sink, flags, Flag::Inbounds);
    put_flag(out, sink, flags, Flag::Nusw);
    put_flag(out, sink, flags, Flag::Volatile);
}

/// Puts the flags of a `getelementptr`, in the order in which it writes them.
pub fn put_address_flags<S: Sink>(out: &mut Gathered, sink: &mut S, flags: Flags)
    ensures { Prints (state out.old (S.taken sink.old) (S.faults sink.old)) (state out.new (S.taken sink.new) (S.faults sink.new)) (address_flags_phrase flags Space) }
{
    put_flag(out, sink, flags, Flag::Inbounds);
    put_flag(out, sink, flags, Flag::Nusw);
    put_flag(out, sink, flags, Flag::Nuw);
}
