//! Where a value is put, and one leaf of it.
ghost use Rattle.std.specs.Prelude.{◌≡◌, ◌+◌, ◌<◌, ◌^◌, ◌∷◌, [], IfErr, is_ok, length};
ghost use Rattle.ir_memory.specs.Answer.{Keeps};
ghost use Rattle.ir_memory.specs.Given.{IsKnown, IsLeaf};
ghost use Rattle.typed_runs.specs.Kinds.{IsOf};
ghost use Rattle.run_names.specs.Values.Answer.{Stores};
ghost use Rattle.run_initial.specs.Initial.Fresh.{is_fresh, put};

use ir_eval::{Pointer, Scalar};
use ir_memory::{Leaf, Memory, MemoryFault};
use run_names::values::{Slot, store_leaf};
use std::alloc::AllocError;

/// Where a value is put: its block, and how far behind the block's start, in bytes.
///
/// ```
/// Target { block, offset: 4 } // from the fifth byte of the block on
/// ```
#[derive(Clone, Copy)]
pub struct Target {
    pub block: Pointer,
    pub offset: u64,
}

/// So many bytes further on.
pub(crate) fn further(target: Target, distance: u64) -> Target
    requires { target.offset + distance < 2 ^ 64 }
    ensures { result ≡ record target { offset = target.offset + distance } }
{
    Target {
        block: target.block,
        offset: target.offset + distance,
    }
}

/// Whether fresh memory reads as a leaf: an integer that is 0.
fn is_fresh(value: Scalar) -> bool
    ensures { result ≡ is_fresh value }
{
    match value {
        Scalar::Int(number) => number == 0,
        Scalar::Ptr(_) => false,
        Scalar::Poison => false,
    }
}

/// Stores a leaf, unless fresh memory reads as it; it is aligned to a byte. It is refused exactly where the store is undefined, or for
/// want of memory.
pub fn put_leaf(
    memory: &mut Memory,
    target: Target,
    kind: Leaf,
    value: Scalar,
) -> Result<(), MemoryFault>
    requires block { IsKnown memory.old.list target.block }
    requires kind { IsLeaf kind }
    requires value { IsOf (length memory.old.list) kind value }
    ensures put { Stores (put target.block ((record { offset = target.offset; leaf = kind }, value) ∷ []) memory.old) memory.new result }
    ensures kept { Keeps memory.old memory.new }
{
    if is_fresh(value) {
        return Ok(());
    }
    let slot = Slot::new(target.offset, kind);
    store_leaf(memory, Scalar::Ptr(target.block), 1, slot, value)
}

/// What is told of stores of which none is undefined: they are refused for want of memory alone.
pub fn wanting_memory(stored: Result<(), MemoryFault>) -> Result<(), AllocError>
    requires { IfErr stored (λ fault. fault ≡ MemoryFault.Memory) }
    ensures { is_ok result ≡ is_ok stored }
{
    match stored {
        Ok(()) => Ok(()),
        Err(MemoryFault::Memory) => Err(AllocError),
        Err(MemoryFault::Undefined(_)) => unreachable!(),
        Err(MemoryFault::MemoryLimit) => unreachable!(),
    }
}
