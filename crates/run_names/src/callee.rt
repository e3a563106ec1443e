//! What has an address.
ghost use Rattle.std.specs.Prelude.{◌≡◌, ◌<◌, ◌^◌, IfSome, None};
ghost use Rattle.linkage_rules.specs.Addresses as addresses;
ghost use Rattle.run_rules.specs.Look as look;

use ir_eval::{Pointer, Scalar};
use linkage_rules::{FIRST_FUNCTION, FUNCTION_STEP};
use module_arena::{FunctionId, HostRow};

/// What has an address, and can be called there.
#[derive(Clone, Copy)]
pub enum CalleeRef {
    /// The function of the module with that number, which has a body.
    Code(FunctionId),
    /// A function of the host.
    Host(HostRow),
    /// Nothing.
    Nothing,
}

/// The number of the function symbol with an address, counted from 0. None where no function symbol can have it.
pub(crate) fn function_number(address: u64) -> Option<u64>
    ensures number { result ≡ look.function_number address }
    ensures small { IfSome result (λ n. n < 2 ^ 60) }
{
    if address < FIRST_FUNCTION || (address - FIRST_FUNCTION) % FUNCTION_STEP != 0 {
        return None;
    }
    Some((address - FIRST_FUNCTION) / FUNCTION_STEP)
}

/// The address of the function symbol with that number, counted from 0.
pub fn function_address(number: u32) -> u64
    ensures { result ≡ addresses.function_address number }
{
    FIRST_FUNCTION + FUNCTION_STEP * u64::from(number)
}

/// A pointer to a function: it has no block.
pub(crate) fn function_pointer(id: FunctionId) -> Scalar
    ensures { result ≡ Scalar.Ptr (record { block = None; address = addresses.function_address id }) }
{
    Scalar::Ptr(Pointer {
        block: None,
        address: function_address(id.number()),
    })
}
