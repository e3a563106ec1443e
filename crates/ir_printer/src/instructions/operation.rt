//! What an instruction does.
ghost use Rattle.std.specs.Prelude.{◌≡◌, length, true};
ghost use Rattle.ir_printer.specs.Gathered.Told.{state};
ghost use Rattle.canonical.specs.Operations.{operation_phrase};
ghost use Rattle.module_arena.specs.Known.{KnowsInst};
ghost use Rattle.module_arena.specs.Lists.{value_names, function_blocks};
ghost use Rattle.ir_printer.specs.Phrases.Printing.{separator_of, Prints};
ghost use Rattle.module_arena.specs.Accesses.{is_access};
ghost use Rattle.ir_printer.specs.Instructions.Parts.{operation_of};

use crate::gathered::Gathered;
use crate::instructions::arithmetic::{
    put_binary, put_compare, put_convert, put_freeze, put_select,
};
use crate::instructions::calls::put_call;
use crate::instructions::memory::{put_alloca, put_element_address, put_load, put_store};
use crate::instructions::parts::{put_extract, put_insert};
use crate::instructions::phis::put_phi;
use crate::phrases::Separator;
use ir_base::Sink;
use module_arena::{Arena, Function, Inst};

/// Puts what an instruction does that works on memory or computes an address, without its result.
fn put_access<S: Sink>(
    out: &mut Gathered,
    sink: &mut S,
    arena: &Arena,
    function: &Function,
    inst: &Inst,
    behind: Separator,
)
    requires known { KnowsInst (length arena.now.table.types) (length arena.now.constants) (length (value_names function.now)) (length (function_blocks function.now)) inst.now }
    requires access { is_access inst.now ≡ true }
    ensures { Prints (state out.old (S.taken sink.old) (S.faults sink.old)) (state out.new (S.taken sink.new) (S.faults sink.new)) (operation_phrase (operation_of arena.now function.now inst.now) (separator_of behind)) }
{
    match inst {
        Inst::Load(flags, _, ty, address, alignment) => {
            put_load(
                out, sink, arena, function, *flags, *ty, *address, *alignment, behind,
            )
        }
        Inst::Store(flags, stored, address, alignment) => {
            put_store(
                out, sink, arena, function, *flags, *stored, *address, *alignment, behind,
            )
        }
        Inst::Alloca(_, ty, count, alignment) => {
            put_alloca(out, sink, arena, function, *ty, *count, *alignment, behind)
        }
        Inst::GetElementPtr(flags, _, source, base, indices) => {
            let indices = indices.as_slice();
            put_element_address(
                out, sink, arena, function, *flags, *source, *base, indices, behind,
            )
        }
        _ => unreachable!(),
    }
}

/// Puts what an instruction does, without its result.
pub(crate) fn put_operation<S: Sink>(
    out: &mut Gathered,
    sink: &mut S,
    arena: &Arena,
    function: &Function,
    inst: &Inst,
    behind: Separator,
)
    requires { KnowsInst (length arena.now.table.types) (length arena.now.constants) (length (value_names function.now)) (length (function_blocks function.now)) inst.now }
    ensures { Prints (state out.old (S.taken sink.old) (S.faults sink.old)) (state out.new (S.taken sink.new) (S.faults sink.new)) (operation_phrase (operation_of arena.now function.now inst.now) (separator_of behind)) }
{
    match inst {
        Inst::Binary(code, flags, _, left, right) => {
            put_binary(
                out, sink, arena, function, *code, *flags, *left, *right, behind,
            )
        }
        Inst::Compare(flags, predicate, _, left, right) => {
            put_compare(
                out, sink, arena, function, *flags, *predicate, *left, *right, behind,
            )
        }
        Inst::Convert(code, flags, _, part, to) => {
            put_convert(
                out, sink, arena, function, *code, *flags, *part, *to, behind,
            )
        }
        Inst::Select(_, choice) => put_select(out, sink, arena, function, choice.get(), behind),
        Inst::Freeze(_, part) => put_freeze(out, sink, arena, function, *part, behind),
        Inst::Phi(_, ty, incoming) => {
            put_phi(out, sink, arena, function, *ty, incoming.as_slice(), behind)
        }
        Inst::Call(call) => put_call(out, sink, arena, function, call.get(), behind),
        Inst::ExtractValue(_, aggregate, indices) => {
            let indices = indices.as_slice();
            put_extract(out, sink, arena, function, *aggregate, indices, behind)
        }
        Inst::InsertValue(_, insertion) => {
            put_insert(out, sink, arena, function, insertion.get(), behind)
        }
        _ => put_access(out, sink, arena, function, inst, behind),
    }
}
