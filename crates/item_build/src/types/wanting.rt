//! Faults of calls that refuse for want of memory alone.
ghost use Rattle.std.specs.Prelude.{◌≡◌};
ghost use Rattle.module_arena.specs.declared.fault.ArenaFault.{ArenaFault};
ghost use Rattle.type_table.specs.declared.fault.TypeFault.{TypeFault};

use module_arena::ArenaFault;
use std::alloc::AllocError;
use type_table::TypeFault;

/// The fault of an arena that takes the entry: nothing but memory is wanting.
pub fn entry_out_of_memory(_fault: ArenaFault) -> AllocError
    requires { _fault ≡ ArenaFault.Memory }
{
    AllocError
}

/// The fault of a table that takes the type or the struct: nothing but memory is wanting.
pub fn type_out_of_memory(_fault: TypeFault) -> AllocError
    requires { _fault ≡ TypeFault.Memory }
{
    AllocError
}
