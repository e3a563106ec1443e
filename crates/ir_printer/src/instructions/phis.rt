//! Phis.
ghost use Rattle.std.specs.Prelude.{◌<◌, length, map, All};
ghost use Rattle.ir_printer.specs.Gathered.Told.{state};
ghost use Rattle.canonical.specs.Phrase.{listed};
ghost use Rattle.canonical.specs.Operations.{operation_phrase, incoming_phrase};
ghost use Rattle.module_arena.specs.Module as m;
ghost use Rattle.type_table.specs.Types.{tree};
ghost use Rattle.ir_printer.specs.Phrases.Printing.{separator_of, Prints};
ghost use Rattle.ir_printer.specs.Instructions.Parts.{HasIncoming, incoming_of};

use crate::gathered::Gathered;
use crate::instructions::arithmetic::put_opcode;
use crate::instructions::operands::put_value;
use crate::phrases::{Separator, put_comma, put_local, put_token, put_type};
use ir_base::Sink;
use ir_tables::Opcode;
use module_arena::{Arena, Function, Incoming};
use type_table::TypeId;

/// Puts a value of a phi of that type, and the block that it comes from.
fn put_incoming<S: Sink>(
    out: &mut Gathered,
    sink: &mut S,
    arena: &Arena,
    function: &Function,
    ty: TypeId,
    incoming: Incoming,
    behind: Separator,
)
    requires ty { ty < length arena.now.table.types }
    requires incoming { HasIncoming arena.now function.now incoming }
    ensures { Prints (state out.old (S.taken sink.old) (S.faults sink.old)) (state out.new (S.taken sink.new) (S.faults sink.new)) (incoming_phrase (tree arena.now.table ty) (incoming_of arena.now function.now incoming) (separator_of behind)) }
{
    put_token(out, sink, b"[", Separator::Space);
    put_value(
        out,
        sink,
        arena,
        function,
        ty,
        incoming.value,
        Separator::Nothing,
    );
    put_token(out, sink, b",", Separator::Space);
    put_local(
        out,
        sink,
        &function.block(incoming.block).name,
        Separator::Space,
    );
    put_token(out, sink, b"]", behind);
}

/// Puts the values of a phi of that type, with commas between them.
fn put_all_incoming<S: Sink>(
    out: &mut Gathered,
    sink: &mut S,
    arena: &Arena,
    function: &Function,
    ty: TypeId,
    parts: &[Incoming],
    behind: Separator,
)
    requires ty { ty < length arena.now.table.types }
    requires parts { All (HasIncoming arena.now function.now) parts.now }
    ensures { Prints (state out.old (S.taken sink.old) (S.faults sink.old)) (state out.new (S.taken sink.new) (S.faults sink.new)) (listed (map (incoming_phrase (tree arena.now.table ty)) (map (incoming_of arena.now function.now) parts.now)) (separator_of behind)) }
{
    'parts: for place in 0..parts.len() {
        let others = parts.len() - 1 - place;
        put_incoming(
            out,
            sink,
            arena,
            function,
            ty,
            parts[place],
            behind.before(others),
        );
        put_comma(out, sink, others);
    }
}

/// Puts `phi`.
pub(crate) fn put_phi<S: Sink>(
    out: &mut Gathered,
    sink: &mut S,
    arena: &Arena,
    function: &Function,
    ty: TypeId,
    incoming: &[Incoming],
    behind: Separator,
)
    requires ty { ty < length arena.now.table.types }
    requires incoming { All (HasIncoming arena.now function.now) incoming.now }
    ensures { Prints (state out.old (S.taken sink.old) (S.faults sink.old)) (state out.new (S.taken sink.new) (S.faults sink.new)) (operation_phrase (m.Phi (tree arena.now.table ty) (map (incoming_of arena.now function.now) incoming.now)) (separator_of behind)) }
{
    put_opcode(out, sink, Opcode::Phi);
    put_type(out, sink, arena.types(), ty, Separator::Space);
    put_all_incoming(out, sink, arena, function, ty, incoming, behind);
}
