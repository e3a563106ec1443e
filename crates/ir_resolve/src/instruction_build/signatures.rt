//! Function types of calls.
ghost use Rattle.std.specs.Prelude.{◌≡◌, map, All, IfOk, OnOk};
ghost use Rattle.ir_phrases.specs.Constants.View.{type_view, typed_value_view};
ghost use Rattle.ir_phrases.specs.Instructions.View.{call_view};
ghost use Rattle.type_table.specs.Types.{structs};
ghost use Rattle.name_rules.specs.Bodies.{types_of, signature_in};
ghost use Rattle.name_rules.specs.Written.{type_in};
ghost use Rattle.item_build.specs.Types.Fitting.{CanBe};
ghost use Rattle.item_build.specs.Types.Holding.{entries};
ghost use Rattle.item_build.specs.Types.Stands.{AreTypes, Grows};
ghost use Rattle.item_build.specs.Buildable.Bodies.{CanType, CanSignature};
ghost use Rattle.ir_resolve.specs.InstructionBuild.Parts.{IsSignature};

use ir_base::ItemList;
use ir_phrases::constants::TypedValue;
use ir_phrases::instructions::WrittenCall;
use item_build::types::Builder;
use module_arena::Signature;
use std::alloc::{AllocError, Global};
use type_table::TypeList;

/// The types of the arguments, in order.
fn argument_types(
    builder: &mut Builder,
    alloc: Global,
    written: &[TypedValue],
) -> Result<TypeList, AllocError>
    requires can { All (λ w. CanBe (structs builder.old.arena.table) (type_in w.0)) (map typed_value_view written.now) }
    ensures grows { OnOk result (Grows builder.old.arena builder.new.arena) }
    ensures are { IfOk result (λ ids. AreTypes builder.new.arena ids (types_of (map typed_value_view written.now))) }
{
    let mut ids = Vec::with_capacity(alloc, written.len())?;
    for argument in written {
        let id = builder.add_type(alloc, &argument.ty)?;
        ids.push(id)?;
    }
    Ok(ItemList::from_vec(ids))
}

/// The function type of a call, whole: what it writes, else made of the types of the arguments.
/// It is refused for want of memory alone.
pub(crate) fn build_signature(
    builder: &mut Builder,
    alloc: Global,
    call: &WrittenCall,
) -> Result<Signature, AllocError>
    requires returns { CanType (structs builder.old.arena.table) (entries builder.old.arena) (call_view call.now).returns }
    requires signature { CanSignature (structs builder.old.arena.table) (entries builder.old.arena) (call_view call.now).signature }
    requires arguments { All (λ w. CanBe (structs builder.old.arena.table) (type_in w.0)) (call_view call.now).arguments }
    ensures grows { OnOk result (Grows builder.old.arena builder.new.arena) }
    ensures is { IfOk result (λ s. IsSignature builder.new.arena s (signature_in (call_view call.now).returns (call_view call.now).arguments (call_view call.now).signature)) }
{
    let returns = builder.add_type(alloc, &call.returns)?;
    match &call.signature {
        Some(written) => {
            let parameters = builder.add_types(alloc, &written.parameters)?;
            Ok(Signature {
                returns,
                parameters,
                variadic: written.variadic,
            })
        }
        None => {
            let parameters = argument_types(builder, alloc, &call.arguments)?;
            Ok(Signature {
                returns,
                parameters,
                variadic: false,
            })
        }
    }
}
