//! Whether calls suit the type that is called.
ghost use Rattle.std.specs.Prelude.{◌≡◌, ◌<◌, ◌≤◌, List, All, map, length};
ghost use Rattle.type_table.specs.Types.{structs, trees};
ghost use Rattle.module_arena.specs.Module as meant;
ghost use Rattle.module_arena.specs.ValueRules as values;
ghost use Rattle.module_arena.specs.View.{constants_of, inst_view, operand_view, type_at};
ghost use Rattle.module_arena.specs.declared.instruction.Inst.TheVariants as inst;
ghost use Rattle.instruction_verify.specs.Last.ValuesById.{AreLocalTypes, AreTypes};
ghost use Rattle.instruction_verify.specs.Last.CallsById.{HasUses, are_alike};

use crate::last::callees::is_pointer_value;
use crate::last::local_type::LocalType;
use entry_verify::constants::Judge;
use entry_verify::types::TypeJudge;
use module_arena::{Call, Inst, Operand};
use type_table::TypeId;

/// Whether arguments, of which there are enough, have the types of the parameters, in order.
fn are_alike(types: &TypeJudge<'_>, parameters: &[TypeId], arguments: &[Operand]) -> bool
    requires parameters { All (λ ty. ty < length types.now.types) parameters.now }
    requires arguments { All (λ o. o.ty < length types.now.types) arguments.now }
    requires enough { length parameters.now ≤ length arguments.now }
    ensures { result ≡ are_alike types.now parameters.now arguments.now }
{
    for (index, parameter) in parameters.iter().enumerate() {
        if !types.same_type(*parameter, arguments[index].ty) {
            return false;
        }
    }
    true
}

/// Whether arguments have the types of the parameters in number and order, with further ones only where the called type is
/// variadic.
fn arguments_suit(
    types: &TypeJudge<'_>,
    variadic: bool,
    parameters: &[TypeId],
    arguments: &[Operand],
) -> bool
    requires parameters { All (λ ty. ty < length types.now.types) parameters.now }
    requires arguments { All (λ o. o.ty < length types.now.types) arguments.now }
    ensures { (cs : List meant.Constant) (vs bs : List meant.LocalName)
        → result ≡ values.arguments_suit variadic (map (type_at (trees types.now)) parameters.now) (map (operand_view (trees types.now) cs vs bs) arguments.now) }
{
    if arguments.len() < parameters.len() {
        return false;
    }
    let counted = variadic | (arguments.len() == parameters.len());
    counted & are_alike(types, parameters, arguments)
}

/// Whether what is called is a pointer, the arguments have the types of the parameters, and a void call has no result.
#[inline(never)]
fn called_suits(judge: &Judge<'_>, value_types: &[LocalType], call: &Call) -> bool
    requires types { AreTypes judge.now.table value_types.now }
    requires known { HasUses judge.now (length value_types.now) (inst.Call call.now) }
    ensures { (f : meant.Function) (vs bs : List meant.LocalName) → AreLocalTypes judge.now f vs value_types.now
        → result ≡ values.call_suits (structs judge.now.table) f (inst_view (trees judge.now.table) (constants_of judge.now) vs bs (inst.Call call.now)).result (inst_view (trees judge.now.table) (constants_of judge.now) vs bs (inst.Call call.now)).operation }
{
    let types = judge.types();
    let signature = &call.signature;
    let points = is_pointer_value(judge, value_types, call.callee);
    let passed = arguments_suit(
        types,
        signature.variadic,
        signature.parameters.as_slice(),
        call.arguments.as_slice(),
    );
    let kept = !types.is_void(signature.returns) | call.result.is_none();
    points & (passed & kept)
}

/// Whether an instruction that calls has a pointer as callee, arguments of the types of the parameters, and no result where the
/// called type returns none. The list has the type of each parameter and result of the function, by its number.
#[inline(always)]
pub(crate) fn call_suits(judge: &Judge<'_>, value_types: &[LocalType], instruction: &Inst) -> bool
    requires types { AreTypes judge.now.table value_types.now }
    requires known { HasUses judge.now (length value_types.now) instruction.now }
    ensures { (f : meant.Function) (vs bs : List meant.LocalName) → AreLocalTypes judge.now f vs value_types.now
        → result ≡ values.call_suits (structs judge.now.table) f (inst_view (trees judge.now.table) (constants_of judge.now) vs bs instruction.now).result (inst_view (trees judge.now.table) (constants_of judge.now) vs bs instruction.now).operation }
{
    match instruction {
        Inst::Call(call) => called_suits(judge, value_types, call.get()),
        _ => true,
    }
}
