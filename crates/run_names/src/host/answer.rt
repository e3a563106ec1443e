//! What a host function answers.
ghost use Rattle.std.specs.Prelude.{◌≡◌, [], ◌∷◌};
ghost use Rattle.run_names.specs.Host.Answers.{FailsBy, IsUndefined, Refuses, leaves_of};

use ir_eval::Scalar;
use ir_intrinsics::Outcome;
use ir_memory::MemoryFault;
use ir_tables::UndefinedKind;
use std::alloc::AllocError;

/// What a host function answers. The bytes that it writes are handed on apart. That input is read, and that the program exits, is
/// told by the choice of the row.
///
/// ```
/// HostAnswer::Exits(3) // of `exit` at 3, or 259
/// HostAnswer::Gives(None) // of `free` at null
/// ```
#[derive(Clone, Copy)]
pub enum HostAnswer {
    /// It returns: the leaves of its result, if it has one.
    Gives(Option<Outcome>),
    /// Its result is the next byte of the input, or -1 at the end.
    Reads,
    /// The program ends with this status.
    Exits(u8),
    /// The call is undefined.
    Fails(UndefinedKind),
    /// One block more would make too many bytes live.
    MemoryLimit,
}

/// A result of one leaf.
pub fn one_leaf(first: Scalar) -> Option<Outcome>
    ensures { leaves_of result ≡ first ∷ [] }
{
    Some(Outcome {
        first,
        second: None,
    })
}

/// What is answered where memory refused.
pub fn refused(fault: MemoryFault) -> Result<HostAnswer, AllocError>
    ensures { Refuses fault result }
{
    match fault {
        MemoryFault::Undefined(kind) => Ok(HostAnswer::Fails(kind)),
        MemoryFault::MemoryLimit => Ok(HostAnswer::MemoryLimit),
        MemoryFault::Memory => Err(AllocError),
    }
}

/// What is answered where memory refused a call that takes none.
pub(crate) fn failing(fault: MemoryFault) -> HostAnswer
    requires { IsUndefined fault }
    ensures { FailsBy fault result }
{
    match fault {
        MemoryFault::Undefined(kind) => HostAnswer::Fails(kind),
        MemoryFault::MemoryLimit => unreachable!(),
        MemoryFault::Memory => unreachable!(),
    }
}
