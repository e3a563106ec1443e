//! The entries of a module, each on a line of its own or more.
ghost use Rattle.std.specs.Prelude.{codes, map, option_copied};
ghost use Rattle.ir_printer.specs.Gathered.Told.{state};
ghost use Rattle.ir_lexer.specs.Pieces as pieces;
ghost use Rattle.ir_lexer.specs.Pieces.{Line};
ghost use Rattle.type_table.specs.Types.{structs};
ghost use Rattle.canonical.specs.Canonical.{text_phrases, struct_phrase};
ghost use Rattle.canonical.specs.Phrase.{each, word};
ghost use Rattle.ir_printer.specs.Listed.{target};
ghost use Rattle.ir_printer.specs.Phrases.Printing.{Prints};
ghost use Rattle.ir_printer.specs.Entries.{text_lines, variable_lines, alias_lines, function_lines};

use crate::alias::put_alias;
use crate::functions::put_function;
use crate::gathered::Gathered;
use crate::phrases::Separator;
use crate::structs::put_struct;
use crate::texts::{put_source, put_target};
use crate::variable::put_variable;
use ir_base::{Sink, Text};
use module_arena::{AliasId, Arena, FunctionId, VariableId};
use type_table::{StructId, TypeTable};

/// Puts `source_filename`, where there is one.
fn put_source_line<S: Sink>(out: &mut Gathered, sink: &mut S, text: Option<&Text>)
    ensures { (s : pieces.Separator) → Prints (state out.old (S.taken sink.old) (S.faults sink.old)) (state out.new (S.taken sink.new) (S.faults sink.new)) (each Line (text_phrases (word (codes "source_filename")) (option_copied text.entry)) s) }
{
    if let Some(text) = text {
        put_source(out, sink, text.bytes(), Separator::Line);
    }
}

/// Puts `target` with this word, where there is such a text.
fn put_target_line<S: Sink>(out: &mut Gathered, sink: &mut S, what: &[u8], text: Option<&Text>)
    ensures { (s : pieces.Separator) → Prints (state out.old (S.taken sink.old) (S.faults sink.old)) (state out.new (S.taken sink.new) (S.faults sink.new)) (each Line (text_phrases (target what.now) (option_copied text.entry)) s) }
{
    if let Some(text) = text {
        put_target(out, sink, what, text.bytes(), Separator::Line);
    }
}

/// Puts the texts of a module, where they are there.
pub(crate) fn put_texts<S: Sink>(out: &mut Gathered, sink: &mut S, arena: &Arena)
    ensures { (s : pieces.Separator) → Prints (state out.old (S.taken sink.old) (S.faults sink.old)) (state out.new (S.taken sink.new) (S.faults sink.new)) (text_lines arena.now s) }
{
    put_source_line(out, sink, arena.source());
    put_target_line(out, sink, b"datalayout", arena.data_layout());
    put_target_line(out, sink, b"triple", arena.triple());
}

/// Puts the structs of a module.
pub(crate) fn put_structs<S: Sink>(out: &mut Gathered, sink: &mut S, types: &TypeTable)
    ensures { (s : pieces.Separator) → Prints (state out.old (S.taken sink.old) (S.faults sink.old)) (state out.new (S.taken sink.new) (S.faults sink.new)) (each Line (map struct_phrase (structs types.now)) s) }
{
    'parts: for place in 0..types.struct_count() {
        put_struct(out, sink, types, StructId::new(place), Separator::Line);
    }
}

/// Puts the variables of a module.
pub(crate) fn put_variables<S: Sink>(out: &mut Gathered, sink: &mut S, arena: &Arena)
    ensures { (s : pieces.Separator) → Prints (state out.old (S.taken sink.old) (S.faults sink.old)) (state out.new (S.taken sink.new) (S.faults sink.new)) (variable_lines arena.now arena.now.variables s) }
{
    'parts: for place in 0..arena.variable_count() {
        let variable = arena.variable(VariableId::new(place));
        put_variable(out, sink, arena, variable, Separator::Line);
    }
}

/// Puts the aliases of a module.
pub(crate) fn put_aliases<S: Sink>(out: &mut Gathered, sink: &mut S, arena: &Arena)
    ensures { (s : pieces.Separator) → Prints (state out.old (S.taken sink.old) (S.faults sink.old)) (state out.new (S.taken sink.new) (S.faults sink.new)) (alias_lines arena.now arena.now.aliases s) }
{
    // What holds of the entries of each arena.
    let _count = arena.variable_count();
    'parts: for place in 0..arena.alias_count() {
        let alias = arena.alias(AliasId::new(place));
        put_alias(out, sink, arena, alias, Separator::Line);
    }
}

/// Puts the functions of a module.
pub(crate) fn put_functions<S: Sink>(out: &mut Gathered, sink: &mut S, arena: &Arena)
    ensures { (s : pieces.Separator) → Prints (state out.old (S.taken sink.old) (S.faults sink.old)) (state out.new (S.taken sink.new) (S.faults sink.new)) (function_lines arena.now arena.now.functions s) }
{
    // What holds of the entries of each arena.
    let _count = arena.variable_count();
    'parts: for place in 0..arena.function_count() {
        let function = arena.function(FunctionId::new(place));
        put_function(out, sink, arena, function, Separator::Line);
    }
}
