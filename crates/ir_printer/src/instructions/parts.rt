//! Parts of arrays and structs (LangRef, "Aggregate Operations").
ghost use Rattle.ir_printer.specs.Gathered.Told.{state};
ghost use Rattle.canonical.specs.Operations.{operation_phrase};
ghost use Rattle.module_arena.specs.Module as m;
ghost use Rattle.ir_printer.specs.Phrases.Printing.{separator_of, Prints};
ghost use Rattle.ir_printer.specs.Instructions.Named.{operand_of};
ghost use Rattle.ir_printer.specs.Instructions.Parts.{HasThis, insertion_of};

use crate::gathered::Gathered;
use crate::instructions::arithmetic::put_opcode;
use crate::instructions::indices::put_indices;
use crate::instructions::operands::put_operand;
use crate::phrases::{Separator, put_comma, put_token};
use ir_base::Sink;
use ir_tables::Opcode;
use module_arena::{Arena, Function, Insertion, Operand};

/// Puts `extractvalue`.
pub(crate) fn put_extract<S: Sink>(
    out: &mut Gathered,
    sink: &mut S,
    arena: &Arena,
    function: &Function,
    aggregate: Operand,
    indices: &[u32],
    behind: Separator,
)
    requires { HasThis arena.now function.now aggregate }
    ensures { Prints (state out.old (S.taken sink.old) (S.faults sink.old)) (state out.new (S.taken sink.new) (S.faults sink.new)) (operation_phrase (m.ExtractValue (operand_of arena.now function.now aggregate) indices.now) (separator_of behind)) }
{
    put_opcode(out, sink, Opcode::ExtractValue);
    put_operand(
        out,
        sink,
        arena,
        function,
        aggregate,
        behind.before(indices.len()),
    );
    put_comma(out, sink, indices.len());
    put_indices(out, sink, indices, behind);
}

/// Puts `insertvalue`.
pub(crate) fn put_insert<S: Sink>(
    out: &mut Gathered,
    sink: &mut S,
    arena: &Arena,
    function: &Function,
    insertion: &Insertion,
    behind: Separator,
)
    requires aggregate { HasThis arena.now function.now insertion.now.aggregate }
    requires part { HasThis arena.now function.now insertion.now.part }
    ensures { Prints (state out.old (S.taken sink.old) (S.faults sink.old)) (state out.new (S.taken sink.new) (S.faults sink.new)) (operation_phrase (insertion_of arena.now function.now insertion.now) (separator_of behind)) }
{
    let indices = insertion.indices.as_slice();
    put_opcode(out, sink, Opcode::InsertValue);
    put_operand(
        out,
        sink,
        arena,
        function,
        insertion.aggregate,
        Separator::Nothing,
    );
    put_token(out, sink, b",", Separator::Space);
    put_operand(
        out,
        sink,
        arena,
        function,
        insertion.part,
        behind.before(indices.len()),
    );
    put_comma(out, sink, indices.len());
    put_indices(out, sink, indices, behind);
}
