//! Puts what was read into a box, or lets go of it.
ghost use Rattle.std.specs.Prelude.{◌≡◌, IfOk};

use ir_terminals::Fault;
use std::alloc::{AllocError, AllocFailed, Global};

/// Lets go of a value for which there was no room. It stands apart, so that whoever has room moves nothing for it.
#[cold]
#[inline(never)]
fn let_go<T: Drop>(_refused: AllocFailed<T>) -> AllocError {
    AllocError
}

/// Lets go of what was read before what follows was refused. It stands apart, so that what is read stays in one piece.
#[cold]
#[inline(never)]
pub(crate) fn refused<T: Drop>(_read: T, fault: Fault) -> Fault
    ensures { result ≡ fault }
{
    fault
}

/// The value in a box. Where there is no room for it, it is let go at once, and not handed back.
#[inline(always)]
pub(crate) fn boxed<T: Drop>(alloc: Global, value: T) -> Result<Box<T>, AllocError>
    ensures { IfOk result (λ boxed. boxed.value ≡ value) }
{
    match Box::new(alloc, value) {
        Ok(boxed) => Ok(boxed),
        Err(refused) => Err(let_go(refused)),
    }
}
