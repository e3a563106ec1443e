//! Calls as operands.
ghost use Rattle.std.specs.Prelude.{◌≡◌, ◌<◌, ◌++◌, map, drop, length, All, OnOk};
ghost use Rattle.type_table.specs.Types.{tree};
ghost use Rattle.module_arena.specs.declared.entry.Function.{Function};
ghost use Rattle.record_table.specs.Lines as lines;
ghost use Rattle.record_write.specs.Operands.Numbered.{inside, operand_of};
ghost use Rattle.record_write.specs.Operands.Wide.{IsBody, KnowsValue, AreArgumentsIn, ArgumentStandsIn};
ghost use Rattle.bitcode_write.specs.Lines.Lines.{CallStands};
ghost use Rattle.bitcode_write.specs.Lines.Parts.{argument_operands, call_operands};
ghost use Rattle.bitcode_write.specs.Lines.Ids.{KnowsOperand, KnowsOperands, KnowsCall};

use crate::lines::instruction::put_name;
use module_arena::{Call, Operand};
use record_write::operands::{
    Numbering, put_count, put_flag, put_operand, put_value, put_value_at,
};
use std::alloc::AllocError;
use type_table::TypeId;

/// Appends the argument at a place: a value where there is a parameter for it, and behind its type where there is none.
fn put_argument(
    operands: &mut Vec<u64>,
    numbering: &Numbering<'_>,
    parameters: &[TypeId],
    place: usize,
    argument: Operand,
) -> Result<(), AllocError>
    requires parameters { All (λ ty. ty < length numbering.now.table.types) parameters.now }
    requires argument { KnowsOperand numbering.now argument }
    ensures { (f : Function) → IsBody numbering.now f → ArgumentStandsIn numbering.now f (drop place (map (tree numbering.now.table) parameters.now)) argument
        → OnOk result (operands.new.items ≡ operands.old.items ++ argument_operands numbering.now f (drop place (map (tree numbering.now.table) parameters.now)) argument) }
{
    if place >= parameters.len() {
        return put_operand(operands, numbering, argument);
    }
    put_value_at(operands, numbering, parameters[place], argument.value)
}

/// Appends a count, and so many arguments: those for the parameters, and further ones behind their types.
fn put_arguments(
    operands: &mut Vec<u64>,
    numbering: &Numbering<'_>,
    parameters: &[TypeId],
    arguments: &[Operand],
) -> Result<(), AllocError>
    requires parameters { All (λ ty. ty < length numbering.now.table.types) parameters.now }
    requires arguments { KnowsOperands numbering.now arguments.now }
    ensures { (f : Function) → IsBody numbering.now f → AreArgumentsIn numbering.now f (map (tree numbering.now.table) parameters.now) arguments.now
        → OnOk result (operands.new.items ≡ operands.old.items
        ++ (lines.arguments (inside numbering.now f) (map (tree numbering.now.table) parameters.now)).spell (map (operand_of numbering.now f) arguments.now)) }
{
    put_count(operands, arguments.len())?;
    'parts: for place in 0..arguments.len() {
        put_argument(operands, numbering, parameters, place, arguments[place])?;
    }
    Ok(())
}

/// Appends a call: the type that it returns, what its result is called where it has one, its parameters, the callee, and
/// the arguments.
pub(crate) fn put_call(
    operands: &mut Vec<u64>,
    numbering: &Numbering<'_>,
    function: &module_arena::Function,
    call: &Call,
) -> Result<(), AllocError>
    requires { KnowsCall numbering.now function.now call.now }
    ensures { IsBody numbering.now function.now → CallStands numbering.now function.now call.now
        → OnOk result (operands.new.items ≡ operands.old.items ++ call_operands numbering.now function.now call.now) }
{
    let signature = &call.signature;
    numbering.put_type(operands, signature.returns)?;
    put_name(operands, numbering, function, call.result)?;
    put_flag(operands, signature.variadic)?;
    numbering.put_types(operands, signature.parameters.as_slice())?;
    put_value(operands, numbering, false, call.callee)?;
    put_arguments(
        operands,
        numbering,
        signature.parameters.as_slice(),
        call.arguments.as_slice(),
    )
}
