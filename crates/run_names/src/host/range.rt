//! Copies and fills (C, "Copying functions"; LangRef, "llvm.memcpy", "llvm.memmove", "llvm.memset").
ghost use Rattle.std.specs.Prelude.{◌≡◌, [], IfOk, OnErr};
ghost use Rattle.ir_memory.specs.Answer.{Keeps};
ghost use Rattle.ir_memory.specs.Given.{IsAddress};
ghost use Rattle.ir_memory.specs.Memory.{copied, filled};
ghost use Rattle.run_rules.specs.Answer.{changes};
ghost use Rattle.run_names.specs.Host.Answers.{EndsTheRun, answer_of, leaves_of};

use crate::host::HostAnswer;
use crate::host::answer::{failing, refused};
use ir_eval::Scalar;
use ir_intrinsics::Outcome;
use ir_memory::Memory;
use std::alloc::AllocError;

/// Copies so many bytes and gives that result. Ranges that meet and are not equal are undefined, unless they may. A refusal leaves
/// memory as it was. A poison argument is the caller's to refuse: here it is a poison address.
pub fn copy(
    memory: &mut Memory,
    to: Scalar,
    from: Scalar,
    count: u64,
    may_overlap: bool,
    gives: Option<Outcome>,
) -> Result<HostAnswer, AllocError>
    requires to { IsAddress memory.old.list to }
    requires from { IsAddress memory.old.list from }
    ensures answer { IfOk result (λ answer. changes (leaves_of gives) (copied to from count may_overlap memory.old) ≡ answer_of answer memory.new []) }
    ensures refused { IfOk result (λ answer. EndsTheRun answer → memory.new ≡ memory.old) }
    ensures err { OnErr result (memory.new ≡ memory.old) }
    ensures kept { Keeps memory.old memory.new }
{
    match memory.copy(to, from, count, may_overlap) {
        Ok(()) => Ok(HostAnswer::Gives(gives)),
        Err(fault) => refused(fault),
    }
}

/// Writes one byte at so many addresses and gives that result. It takes no memory, and a refusal leaves memory as it was. A poison
/// argument is the caller's to refuse: here it is a poison address.
pub fn fill(
    memory: &mut Memory,
    to: Scalar,
    byte: u8,
    count: u64,
    gives: Option<Outcome>,
) -> HostAnswer
    requires { IsAddress memory.old.list to }
    ensures answer { changes (leaves_of gives) (filled to byte count memory.old) ≡ answer_of result memory.new [] }
    ensures refused { EndsTheRun result → memory.new ≡ memory.old }
    ensures kept { Keeps memory.old memory.new }
{
    match memory.fill(to, byte, count) {
        Ok(()) => HostAnswer::Gives(gives),
        Err(fault) => failing(fault),
    }
}
