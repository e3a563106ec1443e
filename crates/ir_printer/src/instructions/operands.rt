//! Values, and values behind their types.
ghost use Rattle.std.specs.Prelude.{◌<◌, length, map, All};
ghost use Rattle.ir_printer.specs.Gathered.Told.{state};
ghost use Rattle.canonical.specs.Constants.{value_phrase, operand};
ghost use Rattle.canonical.specs.Phrase.{listed};
ghost use Rattle.type_table.specs.Types.{tree};
ghost use Rattle.module_arena.specs.Known.{HasValue, HasOperand};
ghost use Rattle.module_arena.specs.Lists.{value_names};
ghost use Rattle.ir_printer.specs.Phrases.Printing.{separator_of, Prints};
ghost use Rattle.ir_printer.specs.Instructions.Named.{value_of, operand_of};

use crate::gathered::Gathered;
use crate::phrases::{Separator, put_comma, put_constant, put_local, put_type};
use ir_base::Sink;
use module_arena::{Arena, Function, Operand, Value};
use type_table::TypeId;

/// Puts a value that stands at that type.
pub(crate) fn put_value<S: Sink>(
    out: &mut Gathered,
    sink: &mut S,
    arena: &Arena,
    function: &Function,
    ty: TypeId,
    value: Value,
    behind: Separator,
)
    requires ty { ty < length arena.now.table.types }
    requires value { HasValue (length arena.now.constants) (length (value_names function.now)) value }
    ensures { Prints (state out.old (S.taken sink.old) (S.faults sink.old)) (state out.new (S.taken sink.new) (S.faults sink.new)) (value_phrase (tree arena.now.table ty) (value_of arena.now function.now value) (separator_of behind)) }
{
    match value {
        Value::Local(id) => put_local(out, sink, function.value_name(id), behind),
        Value::Known(id) => put_constant(out, sink, arena, ty, id, behind),
    }
}

/// Puts a value with its type.
pub(crate) fn put_operand<S: Sink>(
    out: &mut Gathered,
    sink: &mut S,
    arena: &Arena,
    function: &Function,
    part: Operand,
    behind: Separator,
)
    requires { HasOperand (length arena.now.table.types) (length arena.now.constants) (length (value_names function.now)) part }
    ensures { Prints (state out.old (S.taken sink.old) (S.faults sink.old)) (state out.new (S.taken sink.new) (S.faults sink.new)) (operand (operand_of arena.now function.now part) (separator_of behind)) }
{
    put_type(out, sink, arena.types(), part.ty, Separator::Space);
    put_value(out, sink, arena, function, part.ty, part.value, behind);
}

/// Puts values with their types, with commas between them.
pub(crate) fn put_operands<S: Sink>(
    out: &mut Gathered,
    sink: &mut S,
    arena: &Arena,
    function: &Function,
    parts: &[Operand],
    behind: Separator,
)
    requires { All (HasOperand (length arena.now.table.types) (length arena.now.constants) (length (value_names function.now))) parts.now }
    ensures { Prints (state out.old (S.taken sink.old) (S.faults sink.old)) (state out.new (S.taken sink.new) (S.faults sink.new)) (listed (map operand (map (operand_of arena.now function.now) parts.now)) (separator_of behind)) }
{
    'parts: for place in 0..parts.len() {
        let others = parts.len() - 1 - place;
        put_operand(
            out,
            sink,
            arena,
            function,
            parts[place],
            behind.before(others),
        );
        put_comma(out, sink, others);
    }
}
