//! Addresses behind an address.
ghost use Rattle.std.specs.Prelude.{◌≡◌};
ghost use Rattle.run_rules.specs.Access as access;

use ir_eval::Pointer;

/// The pointer so many bytes further on, modulo 2^64; its block stays.
#[inline(always)]
pub(crate) fn behind(pointer: Pointer, offset: u64) -> Pointer
    ensures { result ≡ access.behind pointer offset }
{
    Pointer {
        block: pointer.block,
        address: pointer.address.wrapping_add(offset),
    }
}
