//! The heap (C, "Memory management functions").
ghost use Rattle.std.specs.Prelude.{◌≡◌, [], true, IfOk, OnErr};
ghost use Rattle.ir_memory.specs.Answer.{Keeps};
ghost use Rattle.ir_memory.specs.Given.{IsKnown};
ghost use Rattle.ir_memory.specs.Memory.{HasFreeAddresses};
ghost use Rattle.run_rules.specs.Access as access;
ghost use Rattle.run_rules.specs.Host.{allocates, frees};
ghost use Rattle.run_names.specs.Host.Answers.{EndsTheRun, answer_of};

use crate::host::HostAnswer;
use crate::host::answer::{failing, one_leaf};
use crate::values::has_room;
use ir_eval::{Pointer, Scalar};
use ir_memory::{BlockKind, Memory};
use run_rules::HEAP_ALIGNMENT;
use std::alloc::AllocError;

/// A new heap block of so many bytes, for which there is room.
fn add_heap_block(memory: &mut Memory, size: u64) -> Result<HostAnswer, AllocError>
    requires next { HasFreeAddresses memory.old }
    requires room { access.has_room size memory.old ≡ true }
    ensures answer { IfOk result (λ answer. allocates size memory.old ≡ answer_of answer memory.new []) }
    ensures refused { IfOk result (λ answer. EndsTheRun answer → memory.new ≡ memory.old) }
    ensures err { OnErr result (memory.new ≡ memory.old) }
{
    match memory.add_block(size, HEAP_ALIGNMENT, BlockKind::Heap) {
        Ok(pointer) => Ok(HostAnswer::Gives(one_leaf(Scalar::Ptr(pointer)))),
        // There is room, so it was memory that was wanted.
        Err(_) => Err(AllocError),
    }
}

/// A new heap block of so many bytes, as `malloc` gives it; the limit on live bytes is told exactly where they would pass it.
/// A refusal leaves memory as it was.
#[tactic(auto, using(crate::proofs::OnHost::Heaps::small, crate::proofs::OnHost::Heaps::no_room))]
pub fn allocate(memory: &mut Memory, size: u128) -> Result<HostAnswer, AllocError>
    requires { HasFreeAddresses memory.old }
    ensures answer { IfOk result (λ answer. allocates size memory.old ≡ answer_of answer memory.new []) }
    ensures refused { IfOk result (λ answer. EndsTheRun answer → memory.new ≡ memory.old) }
    ensures err { OnErr result (memory.new ≡ memory.old) }
{
    if has_room(memory, size) {
        add_heap_block(memory, size as u64)
    } else {
        Ok(HostAnswer::MemoryLimit)
    }
}

/// Ends the heap block that a pointer starts, as `free` does; null ends none. It takes no memory.
pub fn free(memory: &mut Memory, pointer: Pointer) -> HostAnswer
    requires { IsKnown memory.old.list pointer }
    ensures answer { frees pointer memory.old ≡ answer_of result memory.new [] }
    ensures refused { EndsTheRun result → memory.new ≡ memory.old }
    ensures kept { Keeps memory.old memory.new }
{
    if pointer.address == 0 {
        return HostAnswer::Gives(None);
    }
    match memory.end_block(Scalar::Ptr(pointer), BlockKind::Heap) {
        Ok(()) => HostAnswer::Gives(None),
        Err(fault) => failing(fault),
    }
}
