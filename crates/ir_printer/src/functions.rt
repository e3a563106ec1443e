//! Functions (LangRef, "Functions").
ghost use Rattle.std.specs.Prelude.{◌≡◌, length, Some, None};
ghost use Rattle.ir_printer.specs.Gathered.Told.{state};
ghost use Rattle.module_arena.specs.Known.{KnowsFunction};
ghost use Rattle.module_arena.specs.declared.entry.Body.{Body};
ghost use Rattle.canonical.specs.Canonical.{function_phrase};
ghost use Rattle.ir_printer.specs.Phrases.Printing.{separator_of, Prints};
ghost use Rattle.ir_printer.specs.Functions.{function_of, declared_phrase, defined_phrase};

use crate::blocks::put_blocks;
use crate::gathered::Gathered;
use crate::head::{put_declared, put_head, put_parameters};
use crate::phrases::{Separator, put_token};
use ir_base::Sink;
use module_arena::{Arena, Body, Function};

/// Puts a function as a declaration.
fn put_declaration<S: Sink>(
    out: &mut Gathered,
    sink: &mut S,
    arena: &Arena,
    function: &Function,
    behind: Separator,
)
    requires { KnowsFunction (length arena.now.table.types) (length arena.now.constants) function.now }
    ensures { Prints (state out.old (S.taken sink.old) (S.faults sink.old)) (state out.new (S.taken sink.new) (S.faults sink.new)) (declared_phrase arena.now function.now (separator_of behind)) }
{
    put_token(out, sink, b"declare", Separator::Space);
    put_head(out, sink, arena.types(), function, Separator::Nothing);
    put_token(out, sink, b"(", Separator::Nothing);
    put_declared(
        out,
        sink,
        arena.types(),
        function.parameters.as_slice(),
        function.variadic,
    );
    put_token(out, sink, b")", behind);
}

/// Puts a function as a definition, with these blocks of its own.
fn put_definition<S: Sink>(
    out: &mut Gathered,
    sink: &mut S,
    arena: &Arena,
    function: &Function,
    body: &Body,
    behind: Separator,
)
    requires known { KnowsFunction (length arena.now.table.types) (length arena.now.constants) function.now }
    requires own { function.now.body ≡ Some body.now }
    ensures { Prints (state out.old (S.taken sink.old) (S.faults sink.old)) (state out.new (S.taken sink.new) (S.faults sink.new)) (defined_phrase arena.now function.now (separator_of behind)) }
{
    put_token(out, sink, b"define", Separator::Space);
    put_head(out, sink, arena.types(), function, Separator::Nothing);
    put_token(out, sink, b"(", Separator::Nothing);
    let parameters = function.parameters.as_slice();
    put_parameters(out, sink, arena.types(), parameters, Separator::Nothing);
    put_token(out, sink, b")", Separator::Space);
    put_token(out, sink, b"{", Separator::Line);
    put_blocks(out, sink, arena, function, body.blocks.as_slice());
    put_token(out, sink, b"}", behind);
}

/// Puts a function: a definition where it has a body, with that separator behind it.
pub(crate) fn put_function<S: Sink>(
    out: &mut Gathered,
    sink: &mut S,
    arena: &Arena,
    function: &Function,
    behind: Separator,
)
    requires { KnowsFunction (length arena.now.table.types) (length arena.now.constants) function.now }
    ensures { Prints (state out.old (S.taken sink.old) (S.faults sink.old)) (state out.new (S.taken sink.new) (S.faults sink.new)) (function_phrase (function_of arena.now function.now) (separator_of behind)) }
{
    match &function.body {
        Some(body) => put_definition(out, sink, arena, function, body, behind),
        None => put_declaration(out, sink, arena, function, behind),
    }
}
