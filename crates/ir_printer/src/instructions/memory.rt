//! Memory and addresses (LangRef, "Memory Access and Addressing Operations").
ghost use Rattle.std.specs.Prelude.{◌<◌, length, All, Some, None, option_map, option_to_list};
ghost use Rattle.ir_printer.specs.Gathered.Told.{state};
ghost use Rattle.canonical.specs.Constants.{operand};
ghost use Rattle.canonical.specs.Operations.{operation_phrase, aligned};
ghost use Rattle.module_arena.specs.Module as m;
ghost use Rattle.module_arena.specs.declared.instruction.Inst.TheVariants as inst;
ghost use Rattle.type_table.specs.Types.{tree};
ghost use Rattle.ir_printer.specs.Phrases.Printing.{separator_of, Prints};
ghost use Rattle.ir_printer.specs.Instructions.Named.{operand_of};
ghost use Rattle.ir_printer.specs.Instructions.Parts.{HasThis, element_address_of, operation_of};

use crate::gathered::Gathered;
use crate::instructions::alignment::{before_alignment, put_alignment};
use crate::instructions::arithmetic::put_opcode;
use crate::instructions::operands::{put_operand, put_operands};
use crate::phrases::{Separator, put_address_flags, put_comma, put_flags, put_token, put_type};
use ir_base::Sink;
use ir_tables::{Flags, Opcode};
use module_arena::{Arena, Function, Operand};
use type_table::TypeId;

/// Puts an operand, and an alignment behind it where there is one.
fn put_aligned<S: Sink>(
    out: &mut Gathered,
    sink: &mut S,
    arena: &Arena,
    function: &Function,
    part: Operand,
    alignment: Option<u32>,
    behind: Separator,
)
    requires { HasThis arena.now function.now part }
    ensures { Prints (state out.old (S.taken sink.old) (S.faults sink.old)) (state out.new (S.taken sink.new) (S.faults sink.new)) (aligned (operand (operand_of arena.now function.now part)) alignment (separator_of behind)) }
{
    put_operand(
        out,
        sink,
        arena,
        function,
        part,
        before_alignment(alignment, behind),
    );
    put_alignment(out, sink, alignment, behind);
}

/// Puts `load`.
pub(crate) fn put_load<S: Sink>(
    out: &mut Gathered,
    sink: &mut S,
    arena: &Arena,
    function: &Function,
    flags: Flags,
    ty: TypeId,
    address: Operand,
    alignment: Option<u32>,
    behind: Separator,
)
    requires ty { ty < length arena.now.table.types }
    requires address { HasThis arena.now function.now address }
    ensures { Prints (state out.old (S.taken sink.old) (S.faults sink.old)) (state out.new (S.taken sink.new) (S.faults sink.new)) (operation_phrase (m.Load flags (tree arena.now.table ty) (operand_of arena.now function.now address) alignment) (separator_of behind)) }
{
    put_opcode(out, sink, Opcode::Load);
    put_flags(out, sink, flags);
    put_type(out, sink, arena.types(), ty, Separator::Nothing);
    put_token(out, sink, b",", Separator::Space);
    put_aligned(out, sink, arena, function, address, alignment, behind);
}

/// Puts `store`.
pub(crate) fn put_store<S: Sink>(
    out: &mut Gathered,
    sink: &mut S,
    arena: &Arena,
    function: &Function,
    flags: Flags,
    stored: Operand,
    address: Operand,
    alignment: Option<u32>,
    behind: Separator,
)
    requires stored { HasThis arena.now function.now stored }
    requires address { HasThis arena.now function.now address }
    ensures { Prints (state out.old (S.taken sink.old) (S.faults sink.old)) (state out.new (S.taken sink.new) (S.faults sink.new)) (operation_phrase (operation_of arena.now function.now (inst.Store flags stored address alignment)) (separator_of behind)) }
{
    put_opcode(out, sink, Opcode::Store);
    put_flags(out, sink, flags);
    put_operand(out, sink, arena, function, stored, Separator::Nothing);
    put_token(out, sink, b",", Separator::Space);
    put_aligned(out, sink, arena, function, address, alignment, behind);
}

/// Puts an `alloca` of one value.
fn put_single<S: Sink>(
    out: &mut Gathered,
    sink: &mut S,
    arena: &Arena,
    ty: TypeId,
    alignment: Option<u32>,
    behind: Separator,
)
    requires { ty < length arena.now.table.types }
    ensures { Prints (state out.old (S.taken sink.old) (S.faults sink.old)) (state out.new (S.taken sink.new) (S.faults sink.new)) (operation_phrase (m.Alloca (tree arena.now.table ty) None alignment) (separator_of behind)) }
{
    put_opcode(out, sink, Opcode::Alloca);
    put_type(
        out,
        sink,
        arena.types(),
        ty,
        before_alignment(alignment, behind),
    );
    put_alignment(out, sink, alignment, behind);
}

/// Puts an `alloca` with a count.
fn put_several<S: Sink>(
    out: &mut Gathered,
    sink: &mut S,
    arena: &Arena,
    function: &Function,
    ty: TypeId,
    count: Operand,
    alignment: Option<u32>,
    behind: Separator,
)
    requires ty { ty < length arena.now.table.types }
    requires count { HasThis arena.now function.now count }
    ensures { Prints (state out.old (S.taken sink.old) (S.faults sink.old)) (state out.new (S.taken sink.new) (S.faults sink.new)) (operation_phrase (m.Alloca (tree arena.now.table ty) (Some (operand_of arena.now function.now count)) alignment) (separator_of behind)) }
{
    put_opcode(out, sink, Opcode::Alloca);
    put_type(out, sink, arena.types(), ty, Separator::Nothing);
    put_token(out, sink, b",", Separator::Space);
    put_aligned(out, sink, arena, function, count, alignment, behind);
}

/// Puts `alloca`.
pub(crate) fn put_alloca<S: Sink>(
    out: &mut Gathered,
    sink: &mut S,
    arena: &Arena,
    function: &Function,
    ty: TypeId,
    count: Option<Operand>,
    alignment: Option<u32>,
    behind: Separator,
)
    requires ty { ty < length arena.now.table.types }
    requires count { All (HasThis arena.now function.now) (option_to_list count) }
    ensures { Prints (state out.old (S.taken sink.old) (S.faults sink.old)) (state out.new (S.taken sink.new) (S.faults sink.new)) (operation_phrase (m.Alloca (tree arena.now.table ty) (option_map (operand_of arena.now function.now) count) alignment) (separator_of behind)) }
{
    match count {
        Some(count) => put_several(out, sink, arena, function, ty, count, alignment, behind),
        None => put_single(out, sink, arena, ty, alignment, behind),
    }
}

/// Puts `getelementptr`.
pub(crate) fn put_element_address<S: Sink>(
    out: &mut Gathered,
    sink: &mut S,
    arena: &Arena,
    function: &Function,
    flags: Flags,
    source: TypeId,
    base: Operand,
    indices: &[Operand],
    behind: Separator,
)
    requires source { source < length arena.now.table.types }
    requires base { HasThis arena.now function.now base }
    requires indices { All (HasThis arena.now function.now) indices.now }
    ensures { Prints (state out.old (S.taken sink.old) (S.faults sink.old)) (state out.new (S.taken sink.new) (S.faults sink.new)) (operation_phrase (element_address_of arena.now function.now flags source base indices.now) (separator_of behind)) }
{
    put_opcode(out, sink, Opcode::GetElementPtr);
    put_address_flags(out, sink, flags);
    put_type(out, sink, arena.types(), source, Separator::Nothing);
    put_token(out, sink, b",", Separator::Space);
    put_operand(
        out,
        sink,
        arena,
        function,
        base,
        behind.before(indices.len()),
    );
    put_comma(out, sink, indices.len());
    put_operands(out, sink, arena, function, indices, behind);
}
