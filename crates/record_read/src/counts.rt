//! Counts of what is read.
ghost use Rattle.std.specs.Prelude.{◌≡◌, ◌+◌, IfOk};

use std::alloc::AllocError;

/// One more than this count. So many that 32 bits do not hold the count are more than memory holds: they are refused for
/// want of memory.
pub fn one_more(count: u32) -> Result<u32, AllocError>
    ensures { IfOk result (λ next. next ≡ count + 1) }
{
    count.checked_add(1).ok_or(AllocError)
}
