//! The end of allocas (LangRef, "alloca": memory is released when the function returns).
ghost use Rattle.std.specs.Prelude.{◌≡◌, All};
ghost use Rattle.ir_eval.specs.declared.value.Scalar.TheVariants.{Ptr};
ghost use Rattle.ir_memory.specs.declared.kind.BlockKind.TheVariants.{Stack};
ghost use Rattle.ir_memory.specs.Answer.{Keeps};
ghost use Rattle.ir_memory.specs.Given.{IsKnown};
ghost use Rattle.ir_memory.specs.Memory.{ended};
ghost use Rattle.run_rules.specs.Access.{or_as_before, released};

use ir_eval::{Pointer, Scalar};
use ir_memory::{BlockKind, Memory};

/// Ends the block of an alloca, where it has not ended yet.
fn end_alloca(memory: &mut Memory, pointer: Pointer)
    requires { IsKnown memory.old.list pointer }
    ensures value { memory.new ≡ or_as_before memory.old (ended (Ptr pointer) Stack memory.old) }
    ensures kept { Keeps memory.old memory.new }
{
    let _ = memory.end_block(Scalar::Ptr(pointer), BlockKind::Stack);
}

/// Ends the blocks of a function's allocas, in order. It never wants memory.
pub fn release(memory: &mut Memory, allocas: &[Pointer])
    requires { All (IsKnown memory.old.list) allocas.now }
    ensures value { memory.new ≡ released allocas.now memory.old }
    ensures kept { Keeps memory.old memory.new }
{
    'allocas: for pointer in allocas {
        end_alloca(memory, *pointer);
    }
}
