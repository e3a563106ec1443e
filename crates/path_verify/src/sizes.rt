//! How large functions are.
ghost use Rattle.std.specs.Prelude.{◌≡◌, length};
ghost use Rattle.module_arena.specs.Changes.{function_in};
ghost use Rattle.module_arena.specs.Functions.{product};
ghost use Rattle.module_arena.specs.Known.{KnowsFunction};
ghost use Rattle.module_arena.specs.View.{module_of};
ghost use Rattle.path_verify.specs.Verified.{Sized};

use entry_verify::types::VerifyFault;
use module_arena::{Arena, Function, FunctionId, LARGEST_PRODUCT};
use std::alloc::Global;

/// Blocks times values of a function.
fn product_of(arena: &Arena, function: &Function) -> u64
    requires { KnowsFunction (length arena.now.table.types) (length arena.now.constants) function.now }
    ensures { result ≡ product (function_in arena.now function.now) }
{
    match &function.body {
        Some(_) => function.block_count() * function.value_count(),
        None => 0,
    }
}

/// What the limit says of the functions: `FunctionTooLarge` for the first of which blocks times values pass 2^31.
pub(crate) fn judge_sizes(alloc: Global, arena: &Arena) -> Result<(), VerifyFault>
    ensures { Sized (module_of arena.now) result }
{
    // What holds of the functions of each arena.
    let _count = arena.variable_count();
    'functions: for number in 0..arena.function_count() {
        let function = arena.function(FunctionId::new(number));
        let product = product_of(arena, function);
        if product > LARGEST_PRODUCT {
            let name = function.name.copy(alloc)?;
            return Err(VerifyFault::FunctionTooLarge {
                function: name,
                size: product,
            });
        }
    }
    Ok(())
}
