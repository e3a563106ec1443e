//! Calls (LangRef, "'call' Instruction").
ghost use Rattle.std.specs.Prelude.{◌<◌, length, All};
ghost use Rattle.ir_printer.specs.Gathered.Told.{state};
ghost use Rattle.ir_lexer.specs.Pieces.{Space};
ghost use Rattle.canonical.specs.Constants.{constant_phrase, value_phrase};
ghost use Rattle.canonical.specs.Operations.{operation_phrase, signature_phrase};
ghost use Rattle.module_arena.specs.declared.instruction.Inst.TheVariants as inst;
ghost use Rattle.module_arena.specs.View.{constants_of, constant_at};
ghost use Rattle.type_table.specs.Tree.{ptr};
ghost use Rattle.ir_printer.specs.Phrases.Printing.{separator_of, Prints};
ghost use Rattle.ir_printer.specs.Instructions.Named.{value_of};
ghost use Rattle.ir_printer.specs.Instructions.Parts.{HasThis, HasThisValue, operation_of, signature_of, dotted_types};

use crate::gathered::Gathered;
use crate::instructions::arithmetic::put_opcode;
use crate::instructions::operands::put_operands;
use crate::phrases::{Separator, put_constant, put_local, put_signed, put_token, put_type};
use ir_base::Sink;
use ir_tables::{Opcode, WIDEST};
use module_arena::{Arena, Call, Const, ConstId, Function, Signature, Value};
use type_table::{TypeId, TypeTable};

/// Puts types with a comma behind each, and three dots.
pub fn put_dotted<S: Sink>(out: &mut Gathered, sink: &mut S, types: &TypeTable, parts: &[TypeId])
    requires { All (λ part. part < length types.now.types) parts.now }
    ensures { Prints (state out.old (S.taken sink.old) (S.faults sink.old)) (state out.new (S.taken sink.new) (S.faults sink.new)) (dotted_types types.now parts.now) }
{
    'parts: for part in parts {
        put_type(out, sink, types, *part, Separator::Nothing);
        put_token(out, sink, b",", Separator::Space);
    }
    put_token(out, sink, b"...", Separator::Nothing);
}

/// Puts the function type of a call, where it is variadic.
fn put_signature<S: Sink>(out: &mut Gathered, sink: &mut S, arena: &Arena, signature: &Signature)
    requires { All (λ part. part < length arena.now.table.types) signature.now.parameters }
    ensures { Prints (state out.old (S.taken sink.old) (S.faults sink.old)) (state out.new (S.taken sink.new) (S.faults sink.new)) (signature_phrase (signature_of arena.now signature.now) signature.now.variadic Space) }
{
    if signature.variadic {
        put_token(out, sink, b"(", Separator::Nothing);
        put_dotted(out, sink, arena.types(), signature.parameters.as_slice());
        put_token(out, sink, b")", Separator::Space);
    }
}

/// Puts a constant where an address is asked for: the type, which may be any, plays no part.
fn put_address<S: Sink>(
    out: &mut Gathered,
    sink: &mut S,
    arena: &Arena,
    ty: TypeId,
    id: ConstId,
    behind: Separator,
)
    requires ty { ty < length arena.now.table.types }
    requires id { id < length arena.now.constants }
    ensures { Prints (state out.old (S.taken sink.old) (S.faults sink.old)) (state out.new (S.taken sink.new) (S.faults sink.new)) (constant_phrase ptr (constant_at (constants_of arena.now) id) (separator_of behind)) }
{
    // What holds of each arena.
    let _count = arena.variable_count();
    match arena.constant(id) {
        Const::Integer(value) => put_signed(out, sink, WIDEST, *value, behind),
        Const::Truth(_) => put_constant(out, sink, arena, ty, id, behind),
        Const::Null => put_constant(out, sink, arena, ty, id, behind),
        Const::Undef => put_constant(out, sink, arena, ty, id, behind),
        Const::Poison => put_constant(out, sink, arena, ty, id, behind),
        Const::ZeroInitializer => put_constant(out, sink, arena, ty, id, behind),
        Const::Address(_) => put_constant(out, sink, arena, ty, id, behind),
        Const::ByteString(_) => put_constant(out, sink, arena, ty, id, behind),
        Const::Aggregate(_, _) => put_constant(out, sink, arena, ty, id, behind),
        Const::ElementAddress(_, _) => put_constant(out, sink, arena, ty, id, behind),
        Const::Cast(_, _, _) => put_constant(out, sink, arena, ty, id, behind),
        Const::Binary(_, _, _) => put_constant(out, sink, arena, ty, id, behind),
    }
}

/// Puts what is called.
fn put_callee<S: Sink>(
    out: &mut Gathered,
    sink: &mut S,
    arena: &Arena,
    function: &Function,
    ty: TypeId,
    callee: Value,
    behind: Separator,
)
    requires ty { ty < length arena.now.table.types }
    requires callee { HasThisValue arena.now function.now callee }
    ensures { Prints (state out.old (S.taken sink.old) (S.faults sink.old)) (state out.new (S.taken sink.new) (S.faults sink.new)) (value_phrase ptr (value_of arena.now function.now callee) (separator_of behind)) }
{
    match callee {
        Value::Local(id) => put_local(out, sink, function.value_name(id), behind),
        Value::Known(id) => put_address(out, sink, arena, ty, id, behind),
    }
}

/// Puts `call`.
pub(crate) fn put_call<S: Sink>(
    out: &mut Gathered,
    sink: &mut S,
    arena: &Arena,
    function: &Function,
    call: &Call,
    behind: Separator,
)
    requires returns { call.now.signature.returns < length arena.now.table.types }
    requires parameters { All (λ part. part < length arena.now.table.types) call.now.signature.parameters }
    requires callee { HasThisValue arena.now function.now call.now.callee }
    requires arguments { All (HasThis arena.now function.now) call.now.arguments }
    ensures { Prints (state out.old (S.taken sink.old) (S.faults sink.old)) (state out.new (S.taken sink.new) (S.faults sink.new)) (operation_phrase (operation_of arena.now function.now (inst.Call call.now)) (separator_of behind)) }
{
    let returns = call.signature.returns;
    put_opcode(out, sink, Opcode::Call);
    put_type(out, sink, arena.types(), returns, Separator::Space);
    put_signature(out, sink, arena, &call.signature);
    put_callee(
        out,
        sink,
        arena,
        function,
        returns,
        call.callee,
        Separator::Nothing,
    );
    put_token(out, sink, b"(", Separator::Nothing);
    put_operands(
        out,
        sink,
        arena,
        function,
        call.arguments.as_slice(),
        Separator::Nothing,
    );
    put_token(out, sink, b")", behind);
}
