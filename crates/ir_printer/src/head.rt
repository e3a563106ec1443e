//! The heads of functions (LangRef, "Functions").
ghost use Rattle.std.specs.Prelude.{◌<◌, length, All};
ghost use Rattle.ir_printer.specs.Gathered.Told.{state};
ghost use Rattle.ir_lexer.specs.Pieces.{Nothing};
ghost use Rattle.module_arena.specs.View.{parameter_view};
ghost use Rattle.type_table.specs.Types.{trees};
ghost use Rattle.canonical.specs.Canonical.{parameter_phrase};
ghost use Rattle.canonical.specs.Phrase.{listed};
ghost use Rattle.ir_printer.specs.Phrases.Printing.{separator_of, Prints};
ghost use Rattle.ir_printer.specs.Listed.{head_of, declared_list, parameter_list, HasType};

use crate::gathered::Gathered;
use crate::linkage::put_linkage;
use crate::phrases::{Separator, put_comma, put_global, put_local, put_token, put_type};
use ir_base::Sink;
use module_arena::{Function, Parameter};
use type_table::TypeTable;

/// Puts the linkage, the return type and the name of a function, with that separator behind it.
pub(crate) fn put_head<S: Sink>(
    out: &mut Gathered,
    sink: &mut S,
    types: &TypeTable,
    function: &Function,
    behind: Separator,
)
    requires { function.now.result < length types.now.types }
    ensures { Prints (state out.old (S.taken sink.old) (S.faults sink.old)) (state out.new (S.taken sink.new) (S.faults sink.new)) (head_of types.now function.now (separator_of behind)) }
{
    put_linkage(out, sink, function.linkage);
    put_type(out, sink, types, function.result, Separator::Space);
    put_global(out, sink, &function.name, behind);
}

/// Puts the types of a declaration's parameters, and `...` where there may be more.
pub(crate) fn put_declared<S: Sink>(
    out: &mut Gathered,
    sink: &mut S,
    types: &TypeTable,
    parameters: &[Parameter],
    variadic: bool,
)
    requires { All (HasType types.now) parameters.now }
    ensures { Prints (state out.old (S.taken sink.old) (S.faults sink.old)) (state out.new (S.taken sink.new) (S.faults sink.new)) (declared_list types.now parameters.now variadic) }
{
    let dots = usize::from(variadic);
    'parts: for place in 0..parameters.len() {
        let ty = parameters[place].ty;
        put_type(out, sink, types, ty, Separator::Nothing);
        put_comma(out, sink, parameters.len() - 1 - place + dots);
    }
    if variadic {
        put_token(out, sink, b"...", Separator::Nothing);
    }
}

/// Puts a parameter: its type and what it is called.
fn put_parameter<S: Sink>(
    out: &mut Gathered,
    sink: &mut S,
    types: &TypeTable,
    parameter: &Parameter,
    behind: Separator,
)
    requires { HasType types.now parameter.now }
    ensures { Prints (state out.old (S.taken sink.old) (S.faults sink.old)) (state out.new (S.taken sink.new) (S.faults sink.new)) (parameter_phrase (parameter_view (trees types.now) parameter.now) (separator_of behind)) }
{
    put_type(out, sink, types, parameter.ty, Separator::Space);
    put_local(out, sink, &parameter.name, behind);
}

/// Puts the parameters of a definition, with that separator behind it.
pub(crate) fn put_parameters<S: Sink>(
    out: &mut Gathered,
    sink: &mut S,
    types: &TypeTable,
    parameters: &[Parameter],
    behind: Separator,
)
    requires { All (HasType types.now) parameters.now }
    ensures { Prints (state out.old (S.taken sink.old) (S.faults sink.old)) (state out.new (S.taken sink.new) (S.faults sink.new)) (listed (parameter_list types.now parameters.now) (separator_of behind)) }
{
    'parts: for place in 0..parameters.len() {
        let others = parameters.len() - 1 - place;
        put_parameter(out, sink, types, &parameters[place], behind.before(others));
        put_comma(out, sink, others);
    }
}
