//! One call of a host function, by its row.
ghost use Rattle.std.specs.Prelude.{◌≡◌, ◌%◌, [], List, false, IfOk, OnErr, if◌then◌else◌, length, map};
ghost use Rattle.std.specs.List.{list_any};
ghost use Rattle.ir_memory.specs.Memory.{HasFreeAddresses, copied, filled};
ghost use Rattle.ir_tables.specs.declared.undefined_kind.UndefinedKind.TheVariants.{PoisonArgument};
ghost use Rattle.module_arena.specs.declared.host.HostRow.TheVariants as HostRow;
ghost use Rattle.run_names.specs.Host.Answers.{EndsTheRun, Writes, answer_of, leaves_of};
ghost use Rattle.run_rules.specs.Answer.{changes, undefined};
ghost use Rattle.run_rules.specs.Host.{done, host, is_poison, operand_at};
ghost use Rattle.run_names.specs.Types.Wanted.{leaf_of};
ghost use Rattle.type_table.specs.Shape.{Shape};
ghost use Rattle.typed_runs.specs.States.{IsRow};
ghost use Rattle.run_actions.specs.Hosts.Made.{EndsOrReads, IsHostCall};
ghost use Rattle.run_actions.specs.Hosts.Taken.{AreCopied, AreFilled, AreTaken, given, number_of};

use crate::hosts::argument::{count_at, has_poison, number_at, pointer_at};
use crate::hosts::kinds::ArgumentKinds;
use crate::hosts::print::print;
use ir_eval::Scalar;
use ir_intrinsics::Outcome;
use ir_memory::Memory;
use ir_tables::UndefinedKind;
use module_arena::HostRow;
use run_names::host::{
    HostAnswer, allocate, copy, evaluate, fill, free, one_leaf, operand_at, put_byte, put_line,
    string_length,
};
use run_rules::ABORTED;
use std::alloc::{AllocError, Global};

/// What a copy or a fill gives: the functions of C give the address where they wrote, the intrinsics nothing.
fn given(row: HostRow, arguments: &[Scalar]) -> Option<Outcome>
    ensures { leaves_of result ≡ given row arguments.now }
{
    match row {
        HostRow::Memcpy | HostRow::Memmove | HostRow::Memset => one_leaf(operand_at(arguments, 0)),
        _ => None,
    }
}

/// Copies: the arguments are where to, where from, and how many bytes.
fn copy_bytes(
    memory: &mut Memory,
    row: HostRow,
    arguments: &[Scalar],
    may_overlap: bool,
) -> Result<HostAnswer, AllocError>
    requires { AreCopied memory.old.list arguments.now }
    ensures answer { IfOk result (λ answer. changes (given row arguments.now) (copied (operand_at arguments.now 0) (operand_at arguments.now 1) (number_of (operand_at arguments.now 2)) may_overlap memory.old) ≡ answer_of answer memory.new []) }
    ensures refused { IfOk result (λ answer. EndsTheRun answer → memory.new ≡ memory.old) }
    ensures err { OnErr result (memory.new ≡ memory.old) }
{
    let to = operand_at(arguments, 0);
    let from = operand_at(arguments, 1);
    let count = count_at(arguments, 2);
    let gives = given(row, arguments);
    copy(memory, to, from, count, may_overlap, gives)
}

/// Fills: the arguments are where to, the number whose low byte is written, and how many bytes.
fn fill_bytes(memory: &mut Memory, row: HostRow, arguments: &[Scalar]) -> HostAnswer
    requires { AreFilled memory.old.list arguments.now }
    ensures answer { changes (given row arguments.now) (filled (operand_at arguments.now 0) (number_of (operand_at arguments.now 1) % 256) (number_of (operand_at arguments.now 2)) memory.old) ≡ answer_of result memory.new [] }
    ensures refused { EndsTheRun result → memory.new ≡ memory.old }
{
    let to = operand_at(arguments, 0);
    let byte = (number_at(arguments, 1) % 256) as u8;
    let count = count_at(arguments, 2);
    let gives = given(row, arguments);
    fill(memory, to, byte, count, gives)
}

/// Carries out the call of a row that is neither an intrinsic over integers nor `printf`, none of whose arguments is poison.
fn carry_out(
    row: HostRow,
    arguments: &[Scalar],
    memory: &mut Memory,
    written: &mut Vec<u8>,
) -> Result<HostAnswer, AllocError>
    requires taken { AreTaken row (length memory.old.list) arguments.now }
    requires full { list_any is_poison arguments.now ≡ false }
    requires next { HasFreeAddresses memory.old }
    ensures answer { Writes (done row arguments.now memory.old) memory.new written.old.items written.new.items result }
    ensures kept { IfOk result (λ answer. EndsOrReads answer → memory.new ≡ memory.old) }
    ensures err { OnErr result (memory.new ≡ memory.old) }
{
    match row {
        HostRow::Putchar => put_byte(number_at(arguments, 0), written),
        HostRow::Puts => put_line(memory, pointer_at(arguments, 0), written),
        HostRow::Getchar => Ok(HostAnswer::Reads),
        HostRow::Exit => Ok(HostAnswer::Exits((number_at(arguments, 0) % 256) as u8)),
        HostRow::Abort => Ok(HostAnswer::Exits(ABORTED)),
        HostRow::Malloc => allocate(memory, number_at(arguments, 0)),
        HostRow::Free => Ok(free(memory, pointer_at(arguments, 0))),
        HostRow::Strlen => string_length(memory, pointer_at(arguments, 0), written),
        HostRow::Memcpy | HostRow::MemcpyI64 | HostRow::MemcpyI32 => {
            copy_bytes(memory, row, arguments, false)
        }
        HostRow::Memmove | HostRow::MemmoveI64 | HostRow::MemmoveI32 => {
            copy_bytes(memory, row, arguments, true)
        }
        HostRow::Memset | HostRow::MemsetI64 | HostRow::MemsetI32 => {
            Ok(fill_bytes(memory, row, arguments))
        }
        HostRow::LifetimeStart | HostRow::LifetimeEnd => Ok(HostAnswer::Gives(None)),
        HostRow::Printf | HostRow::Integer(_, _) => {
            Ok(HostAnswer::Fails(UndefinedKind::AnotherFunctionType))
        }
    }
}

/// Calls a row that is neither an intrinsic over integers nor `printf`: a poison argument is undefined before anything else.
fn call_plain(
    row: HostRow,
    arguments: &[Scalar],
    memory: &mut Memory,
    written: &mut Vec<u8>,
) -> Result<HostAnswer, AllocError>
    requires taken { AreTaken row (length memory.old.list) arguments.now }
    requires next { HasFreeAddresses memory.old }
    ensures answer { Writes (if list_any is_poison arguments.now then undefined PoisonArgument else done row arguments.now memory.old) memory.new written.old.items written.new.items result }
    ensures kept { IfOk result (λ answer. EndsOrReads answer → memory.new ≡ memory.old) }
    ensures err { OnErr result (memory.new ≡ memory.old) }
{
    if has_poison(arguments) {
        return Ok(HostAnswer::Fails(UndefinedKind::PoisonArgument));
    }
    carry_out(row, arguments, memory, written)
}

/// Calls a host function by one of its types: what it answers, with memory as it is then and the bytes that it writes behind those
/// that are there (C, "Library"; LangRef, "Intrinsic Functions"). The arguments are leaves, one after another; `kinds` tells what each
/// argument is, where it is one leaf, and is looked at by `printf` alone.
///
/// Memory changes and bytes are added only where the function returns. It is refused for want of memory alone; memory is as it was
/// then, and a part of the bytes may be there.
pub fn call(
    alloc: Global,
    row: HostRow,
    kinds: &ArgumentKinds<'_>,
    arguments: &[Scalar],
    memory: &mut Memory,
    written: &mut Vec<u8>,
) -> Result<HostAnswer, AllocError>
    requires row { IsRow row }
    requires made { IsHostCall row (length memory.old.list) kinds.now arguments.now }
    requires next { HasFreeAddresses memory.old }
    ensures answer { (shapes : List Shape) → (row ≡ HostRow.Printf → kinds.now ≡ map leaf_of shapes) → Writes (host row shapes arguments.now memory.old) memory.new written.old.items written.new.items result }
    ensures kept { IfOk result (λ answer. EndsOrReads answer → memory.new ≡ memory.old) }
    ensures err { OnErr result (memory.new ≡ memory.old) }
{
    match row {
        HostRow::Integer(which, width) => Ok(evaluate(which, width, arguments)),
        HostRow::Printf => print(alloc, memory, kinds, arguments, written),
        _ => call_plain(row, arguments, memory, written),
    }
}
