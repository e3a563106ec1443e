//! The ends of blocks (LangRef, "Terminator Instructions").
ghost use Rattle.std.specs.Prelude.{◌<◌, length, map, All};
ghost use Rattle.ir_printer.specs.Gathered.Told.{state};
ghost use Rattle.ir_lexer.specs.Pieces.{Space};
ghost use Rattle.canonical.specs.Instructions.{case_phrase, ending_phrase};
ghost use Rattle.canonical.specs.Phrase.{each};
ghost use Rattle.module_arena.specs.Lists.{Lists, function_blocks};
ghost use Rattle.module_arena.specs.Mentions.{end_operands_of, targets_of};
ghost use Rattle.module_arena.specs.Module as m;
ghost use Rattle.module_arena.specs.declared.instruction.Ending.TheVariants as ends;
ghost use Rattle.ir_printer.specs.Phrases.Printing.{separator_of, Prints};
ghost use Rattle.ir_printer.specs.Instructions.Named.{operand_of, label_of};
ghost use Rattle.ir_printer.specs.Instructions.Parts.{HasThis};
ghost use Rattle.ir_printer.specs.Instructions.Lines.{HasCase, case_of, ending_of};

use crate::gathered::Gathered;
use crate::instructions::operands::put_operand;
use crate::instructions::targets::put_target;
use crate::phrases::{Separator, put_token, put_typed};
use ir_base::Sink;
use module_arena::{Arena, BlockId, Case, Ending, Function, Operand, TypedConst};

/// Puts `ret void`.
fn put_return_void<S: Sink>(out: &mut Gathered, sink: &mut S, behind: Separator)
    ensures { Prints (state out.old (S.taken sink.old) (S.faults sink.old)) (state out.new (S.taken sink.new) (S.faults sink.new)) (ending_phrase m.ReturnVoid (separator_of behind)) }
{
    put_token(out, sink, b"ret", Separator::Space);
    put_token(out, sink, b"void", behind);
}

/// Puts `ret` with a value.
fn put_return<S: Sink>(
    out: &mut Gathered,
    sink: &mut S,
    arena: &Arena,
    function: &Function,
    part: Operand,
    behind: Separator,
)
    requires { HasThis arena.now function.now part }
    ensures { Prints (state out.old (S.taken sink.old) (S.faults sink.old)) (state out.new (S.taken sink.new) (S.faults sink.new)) (ending_phrase (m.Return (operand_of arena.now function.now part)) (separator_of behind)) }
{
    put_token(out, sink, b"ret", Separator::Space);
    put_operand(out, sink, arena, function, part, behind);
}

/// Puts `br` to one block.
fn put_jump<S: Sink>(
    out: &mut Gathered,
    sink: &mut S,
    function: &Function,
    to: BlockId,
    behind: Separator,
)
    requires { to < length (function_blocks function.now) }
    ensures { (a : Lists) → Prints (state out.old (S.taken sink.old) (S.faults sink.old)) (state out.new (S.taken sink.new) (S.faults sink.new)) (ending_phrase (m.Jump (label_of a function.now to)) (separator_of behind)) }
{
    put_token(out, sink, b"br", Separator::Space);
    put_target(out, sink, function, to, behind);
}

/// Puts `br` on a condition.
fn put_branch<S: Sink>(
    out: &mut Gathered,
    sink: &mut S,
    arena: &Arena,
    function: &Function,
    condition: Operand,
    then_to: BlockId,
    else_to: BlockId,
    behind: Separator,
)
    requires condition { HasThis arena.now function.now condition }
    requires then_to { then_to < length (function_blocks function.now) }
    requires else_to { else_to < length (function_blocks function.now) }
    ensures { Prints (state out.old (S.taken sink.old) (S.faults sink.old)) (state out.new (S.taken sink.new) (S.faults sink.new)) (ending_phrase (ending_of arena.now function.now (ends.Branch condition then_to else_to)) (separator_of behind)) }
{
    put_token(out, sink, b"br", Separator::Space);
    put_operand(out, sink, arena, function, condition, Separator::Nothing);
    put_token(out, sink, b",", Separator::Space);
    put_target(out, sink, function, then_to, Separator::Nothing);
    put_token(out, sink, b",", Separator::Space);
    put_target(out, sink, function, else_to, behind);
}

/// Puts a case of a `switch`, with a space behind it.
fn put_case<S: Sink>(
    out: &mut Gathered,
    sink: &mut S,
    arena: &Arena,
    function: &Function,
    ty_and_value: TypedConst,
    target: BlockId,
)
    requires { HasCase arena.now function.now (record { ty = ty_and_value.ty; value = ty_and_value.value; target = target }) }
    ensures { Prints (state out.old (S.taken sink.old) (S.faults sink.old)) (state out.new (S.taken sink.new) (S.faults sink.new)) (case_phrase (case_of arena.now function.now (record { ty = ty_and_value.ty; value = ty_and_value.value; target = target })) Space) }
{
    put_typed(out, sink, arena, ty_and_value, Separator::Nothing);
    put_token(out, sink, b",", Separator::Space);
    put_target(out, sink, function, target, Separator::Space);
}

/// Puts the cases of a `switch`, each with a space behind it.
fn put_cases<S: Sink>(
    out: &mut Gathered,
    sink: &mut S,
    arena: &Arena,
    function: &Function,
    cases: &[Case],
)
    requires { All (HasCase arena.now function.now) cases.now }
    ensures { Prints (state out.old (S.taken sink.old) (S.faults sink.old)) (state out.new (S.taken sink.new) (S.faults sink.new)) (each Space (map case_phrase (map (case_of arena.now function.now) cases.now)) Space) }
{
    'parts: for place in 0..cases.len() {
        let case = &cases[place];
        let written = TypedConst {
            ty: case.ty,
            value: case.value,
        };
        put_case(out, sink, arena, function, written, case.target);
    }
}

/// Puts `switch`.
fn put_switch<S: Sink>(
    out: &mut Gathered,
    sink: &mut S,
    arena: &Arena,
    function: &Function,
    part: Operand,
    otherwise: BlockId,
    cases: &[Case],
    behind: Separator,
)
    requires part { HasThis arena.now function.now part }
    requires otherwise { otherwise < length (function_blocks function.now) }
    requires cases { All (HasCase arena.now function.now) cases.now }
    ensures { Prints (state out.old (S.taken sink.old) (S.faults sink.old)) (state out.new (S.taken sink.new) (S.faults sink.new)) (ending_phrase (ending_of arena.now function.now (ends.Switch part otherwise cases.now)) (separator_of behind)) }
{
    put_token(out, sink, b"switch", Separator::Space);
    put_operand(out, sink, arena, function, part, Separator::Nothing);
    put_token(out, sink, b",", Separator::Space);
    put_target(out, sink, function, otherwise, Separator::Space);
    put_token(out, sink, b"[", Separator::Space);
    put_cases(out, sink, arena, function, cases);
    put_token(out, sink, b"]", behind);
}

/// Puts the end of a block.
pub fn put_ending<S: Sink>(
    out: &mut Gathered,
    sink: &mut S,
    arena: &Arena,
    function: &Function,
    ending: &Ending,
    behind: Separator,
)
    requires operands { All (HasThis arena.now function.now) (end_operands_of ending.now) }
    requires targets { All (λ id. id < length (function_blocks function.now)) (targets_of ending.now) }
    ensures { Prints (state out.old (S.taken sink.old) (S.faults sink.old)) (state out.new (S.taken sink.new) (S.faults sink.new)) (ending_phrase (ending_of arena.now function.now ending.now) (separator_of behind)) }
{
    match ending {
        Ending::ReturnVoid => put_return_void(out, sink, behind),
        Ending::Return(part) => put_return(out, sink, arena, function, *part, behind),
        Ending::Jump(to) => put_jump(out, sink, function, *to, behind),
        Ending::Branch {
            condition,
            then_to,
            else_to,
        } => put_branch(
            out, sink, arena, function, *condition, *then_to, *else_to, behind,
        ),
        Ending::Switch {
            value,
            otherwise,
            cases,
        } => put_switch(
            out,
            sink,
            arena,
            function,
            *value,
            *otherwise,
            cases.as_slice(),
            behind,
        ),
        Ending::Unreachable => put_token(out, sink, b"unreachable", behind),
    }
}
