//! Operations on integers and pointers (LangRef, "Binary Operations" and "Conversion Operations").
ghost use Rattle.std.specs.Prelude.{◌<◌, length};
ghost use Rattle.ir_printer.specs.Gathered.Told.{state};
ghost use Rattle.ir_lexer.specs.Pieces.{Space};
ghost use Rattle.canonical.specs.Constants.{opcode};
ghost use Rattle.canonical.specs.Operations.{operation_phrase};
ghost use Rattle.module_arena.specs.Module as m;
ghost use Rattle.type_table.specs.Types.{tree};
ghost use Rattle.ir_printer.specs.Phrases.Printing.{separator_of, Prints};
ghost use Rattle.ir_printer.specs.Instructions.Named.{operand_of};
ghost use Rattle.ir_printer.specs.Instructions.Parts.{HasThis, HasThisValue, binary_of, comparison_of, pair, select_of};

use crate::gathered::Gathered;
use crate::instructions::operands::{put_operand, put_value};
use crate::phrases::{Separator, put_flags, put_token, put_type};
use ir_base::Sink;
use ir_tables::{Flags, Opcode, Predicate};
use module_arena::{Arena, Choice, Function, Operand, Value};
use type_table::TypeId;

/// Puts the word of an opcode, and a space.
pub(crate) fn put_opcode<S: Sink>(out: &mut Gathered, sink: &mut S, code: Opcode)
    ensures { Prints (state out.old (S.taken sink.old) (S.faults sink.old)) (state out.new (S.taken sink.new) (S.faults sink.new)) (opcode code Space) }
{
    put_token(out, sink, code.word().as_bytes(), Separator::Space);
}

/// Puts an operand, and a value of its type behind a comma.
fn put_pair<S: Sink>(
    out: &mut Gathered,
    sink: &mut S,
    arena: &Arena,
    function: &Function,
    left: Operand,
    right: Value,
    behind: Separator,
)
    requires left { HasThis arena.now function.now left }
    requires right { HasThisValue arena.now function.now right }
    ensures { Prints (state out.old (S.taken sink.old) (S.faults sink.old)) (state out.new (S.taken sink.new) (S.faults sink.new)) (pair arena.now function.now left right (separator_of behind)) }
{
    let ty = left.ty;
    put_operand(out, sink, arena, function, left, Separator::Nothing);
    put_token(out, sink, b",", Separator::Space);
    put_value(out, sink, arena, function, ty, right, behind);
}

/// Puts an operation on two operands of one type.
pub(crate) fn put_binary<S: Sink>(
    out: &mut Gathered,
    sink: &mut S,
    arena: &Arena,
    function: &Function,
    code: Opcode,
    flags: Flags,
    left: Operand,
    right: Value,
    behind: Separator,
)
    requires left { HasThis arena.now function.now left }
    requires right { HasThisValue arena.now function.now right }
    ensures { Prints (state out.old (S.taken sink.old) (S.faults sink.old)) (state out.new (S.taken sink.new) (S.faults sink.new)) (operation_phrase (binary_of arena.now function.now code flags left right) (separator_of behind)) }
{
    put_opcode(out, sink, code);
    put_flags(out, sink, flags);
    put_pair(out, sink, arena, function, left, right, behind);
}

/// Puts `icmp`.
pub(crate) fn put_compare<S: Sink>(
    out: &mut Gathered,
    sink: &mut S,
    arena: &Arena,
    function: &Function,
    flags: Flags,
    predicate: Predicate,
    left: Operand,
    right: Value,
    behind: Separator,
)
    requires left { HasThis arena.now function.now left }
    requires right { HasThisValue arena.now function.now right }
    ensures { Prints (state out.old (S.taken sink.old) (S.faults sink.old)) (state out.new (S.taken sink.new) (S.faults sink.new)) (operation_phrase (comparison_of arena.now function.now flags predicate left right) (separator_of behind)) }
{
    put_opcode(out, sink, Opcode::ICmp);
    put_flags(out, sink, flags);
    put_token(out, sink, predicate.word().as_bytes(), Separator::Space);
    put_pair(out, sink, arena, function, left, right, behind);
}

/// Puts a cast to a type.
pub(crate) fn put_convert<S: Sink>(
    out: &mut Gathered,
    sink: &mut S,
    arena: &Arena,
    function: &Function,
    code: Opcode,
    flags: Flags,
    part: Operand,
    to: TypeId,
    behind: Separator,
)
    requires part { HasThis arena.now function.now part }
    requires to { to < length arena.now.table.types }
    ensures { Prints (state out.old (S.taken sink.old) (S.faults sink.old)) (state out.new (S.taken sink.new) (S.faults sink.new)) (operation_phrase (m.Convert code flags (operand_of arena.now function.now part) (tree arena.now.table to)) (separator_of behind)) }
{
    put_opcode(out, sink, code);
    put_flags(out, sink, flags);
    put_operand(out, sink, arena, function, part, Separator::Space);
    put_token(out, sink, b"to", Separator::Space);
    put_type(out, sink, arena.types(), to, behind);
}

/// Puts `select`.
pub(crate) fn put_select<S: Sink>(
    out: &mut Gathered,
    sink: &mut S,
    arena: &Arena,
    function: &Function,
    choice: &Choice,
    behind: Separator,
)
    requires condition { HasThis arena.now function.now choice.now.condition }
    requires first { HasThis arena.now function.now choice.now.first }
    requires second { HasThis arena.now function.now choice.now.second }
    ensures { Prints (state out.old (S.taken sink.old) (S.faults sink.old)) (state out.new (S.taken sink.new) (S.faults sink.new)) (operation_phrase (select_of arena.now function.now choice.now) (separator_of behind)) }
{
    put_opcode(out, sink, Opcode::Select);
    put_operand(
        out,
        sink,
        arena,
        function,
        choice.condition,
        Separator::Nothing,
    );
    put_token(out, sink, b",", Separator::Space);
    put_operand(out, sink, arena, function, choice.first, Separator::Nothing);
    put_token(out, sink, b",", Separator::Space);
    put_operand(out, sink, arena, function, choice.second, behind);
}

/// Puts `freeze`.
pub(crate) fn put_freeze<S: Sink>(
    out: &mut Gathered,
    sink: &mut S,
    arena: &Arena,
    function: &Function,
    part: Operand,
    behind: Separator,
)
    requires { HasThis arena.now function.now part }
    ensures { Prints (state out.old (S.taken sink.old) (S.faults sink.old)) (state out.new (S.taken sink.new) (S.faults sink.new)) (operation_phrase (m.Freeze (operand_of arena.now function.now part)) (separator_of behind)) }
{
    put_opcode(out, sink, Opcode::Freeze);
    put_operand(out, sink, arena, function, part, behind);
}
