//! Allocas (LangRef, "alloca Instruction").
ghost use Rattle.ir_memory.specs.Given.{IsAlignment};
ghost use Rattle.ir_memory.specs.Memory.{HasFreeAddresses};
ghost use Rattle.run_rules.specs.Action.{Allocate};
ghost use Rattle.run_actions.specs.Stack.Origins.{origin_of};
ghost use Rattle.run_actions.specs.Operands.{IsPlace, IsThere, MayGoOn};
ghost use Rattle.run_actions.specs.Accesses.Done.{Accesses, StaysAtAnEnd};

use crate::give;
use crate::stack::{Origin, Stack};
use ir_eval::Scalar;
use ir_memory::{BlockKind, Memory, MemoryFault};
use ir_tables::UndefinedKind;
use run_names::values::block_size;

/// A new block for so many elements, which ends when its function returns; the count is unsigned. Size and alignment are in bytes.
///
/// Refused where the count is poison, or the limit on live bytes would be passed. Refused memory may have made the block already.
#[inline(never)]
pub fn allocate(
    stack: &mut Stack,
    memory: &mut Memory,
    to: u32,
    size: u64,
    align: u32,
    count: &Origin,
) -> Result<(), MemoryFault>
    requires on { MayGoOn stack.old }
    requires place { IsPlace stack.old to }
    requires there { IsThere stack.old count.now }
    requires align { IsAlignment align }
    requires next { HasFreeAddresses memory.old }
    ensures allocates { Accesses (Allocate to size align (origin_of count.now)) result stack.old stack.new memory.old memory.new }
    ensures stays { StaysAtAnEnd result stack.old stack.new memory.old memory.new }
{
    let Scalar::Int(count) = stack.read(count) else {
        return Err(MemoryFault::Undefined(UndefinedKind::PoisonArgument));
    };
    let Some(bytes) = block_size(memory, count, size) else {
        return Err(MemoryFault::MemoryLimit);
    };
    let Ok(pointer) = memory.add_block(bytes, align, BlockKind::Stack) else {
        // There is room, so it was memory that was wanted.
        return Err(MemoryFault::Memory);
    };
    if stack.push_alloca(pointer).is_err() {
        return Err(MemoryFault::Memory);
    }
    give(stack, to, Scalar::Ptr(pointer));
    Ok(())
}
