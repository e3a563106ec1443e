//! What calls ask of a function, and its body.
ghost use Rattle.std.specs.Prelude.{◌≡◌, IfOk, map};
ghost use Rattle.run_names.specs.declared.callee.CalleeRef.TheVariants as callees;
ghost use Rattle.run_names.specs.Told.{HasCode};
ghost use Rattle.run_acts.specs.Program.Loaded.{IsBodyOf, IsHead};
ghost use Rattle.run_decode.specs.Signatures.Numbers.{Numbers};

use crate::program::leaves::leaf_count;
use crate::program::program::FrameNeeds;
use module_arena::{Function, FunctionId};
use run_decode::body::ActionBody;
use run_decode::decode;
use run_decode::signatures::Signatures;
use run_decode::suits::functions_of_a_checked_module_have_values;
use run_names::Names;
use std::alloc::{AllocError, Global};
use type_table::TypeId;

/// The types of the parameters of a function.
fn parameter_types(alloc: Global, function: &Function) -> Result<Vec<TypeId>, AllocError>
    ensures { IfOk result (λ types. types.items ≡ map (λ p. p.ty) function.now.parameters) }
{
    let mut types = Vec::new(alloc);
    'parameters: for parameter in function.parameters.as_slice() {
        types.push(parameter.ty)?;
    }
    Ok(types)
}

/// What a call asks of a function that has a body. Its function type gets a number, if no function type of its shape has one.
pub(crate) fn head_of(
    alloc: Global,
    names: &Names<'_>,
    signatures: &mut Signatures<'_>,
    id: FunctionId,
) -> Result<FrameNeeds, AllocError>
    requires code { HasCode names.now (callees.Code id) }
    requires lists { signatures.old.lists ≡ names.now }
    ensures head { IfOk result (IsHead names.now signatures.new id) }
    ensures numbers { Numbers signatures.old signatures.new }
{
    let arena = names.program().arena();
    // The ids in an arena are those of the arena, and in a checked one each function has values.
    let _count = arena.variable_count();
    functions_of_a_checked_module_have_values();
    let function = arena.function(id);
    let leaves = leaf_count(arena, function)?;
    let parameters = parameter_types(alloc, function)?;
    let signature = signatures.number(function.result, &parameters, function.variadic)?;
    Ok(FrameNeeds { signature, leaves })
}

/// The body of a function that has one, decoded. The function types of its calls get numbers.
pub(crate) fn body_of<'m>(
    alloc: Global,
    names: &Names<'m>,
    signatures: &mut Signatures<'m>,
    id: FunctionId,
) -> Result<ActionBody<'m>, AllocError>
    requires code { HasCode names.now (callees.Code id) }
    requires lists { signatures.old.lists ≡ names.now }
    ensures body { IfOk result (IsBodyOf names.now signatures.new id) }
    ensures numbers { Numbers signatures.old signatures.new }
{
    decode(alloc, names, signatures, id)
}
