//! A whole module.
ghost use Rattle.ir_printer.specs.Gathered.Told.{state};
ghost use Rattle.module_arena.specs.View.{module_of};
ghost use Rattle.canonical.specs.Canonical.{canon_pieces};
ghost use Rattle.ir_printer.specs.Phrases.Printing.{Prints};

use crate::entries::{put_aliases, put_functions, put_structs, put_texts, put_variables};
use crate::gathered::Gathered;
use ir_base::Sink;
use module_arena::Arena;

/// Puts the canonical text of a module: its texts, structs, variables, aliases and functions, each on lines of its own.
pub fn put_module<S: Sink>(out: &mut Gathered, sink: &mut S, arena: &Arena)
    ensures { Prints (state out.old (S.taken sink.old) (S.faults sink.old)) (state out.new (S.taken sink.new) (S.faults sink.new)) (canon_pieces (module_of arena.now)) }
{
    put_texts(out, sink, arena);
    put_structs(out, sink, arena.types());
    put_variables(out, sink, arena);
    put_aliases(out, sink, arena);
    put_functions(out, sink, arena);
}
