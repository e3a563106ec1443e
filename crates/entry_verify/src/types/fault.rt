//! Why a module was refused.
use ir_base::Name;
use module_arena::Entity;
use std::alloc::AllocError;

/// Why a module was refused. It has names and no ids, so that it can be told when the arena is gone.
///
/// ```
/// // where rule 7 does not hold of `@a = global i32 7, align 3`, whose name is `a`
/// VerifyFault::Invalid { rule: 7, entity: Entity::Global(name) }
/// ```
#[derive(Drop)]
pub enum VerifyFault {
    /// Blocks times values of the function of that name pass 2^31: the product.
    FunctionTooLarge { function: Name, size: u64 },
    /// The rule of that number does not hold of the entity.
    Invalid { rule: u8, entity: Entity },
    /// There is no memory left.
    Memory,
}

impl From<AllocError> for VerifyFault {
    ghost use Rattle.std.specs.Prelude.{◌≡◌};
    ghost use Rattle.entry_verify.specs.declared.types.fault.VerifyFault.{VerifyFault};

    ghost from_gives = { λ _ fault. fault ≡ VerifyFault.Memory };

    fn from(_failed: AllocError) -> VerifyFault {
        VerifyFault::Memory
    }
}
