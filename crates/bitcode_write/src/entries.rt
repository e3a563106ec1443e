//! The records of variables, functions and aliases.
ghost use Rattle.std.specs.Prelude.{◌≡◌, ◌<◌, ◌++◌, ◌∷◌, [], length, map, All, OnOk, is_some};
ghost use Rattle.type_table.specs.Types.{tree};
ghost use Rattle.module_arena.specs.Known.{KnowsVariable, KnowsFunction, KnowsAlias, alias_types, counts};
ghost use Rattle.record_table.specs.Fields.{ty};
ghost use Rattle.record_table.specs.Layout.{counted};
ghost use Rattle.record_table.specs.Records as records;
ghost use Rattle.record_write.specs.Operands.Numbered.{indices, texts};
ghost use Rattle.bitcode_write.specs.Put.{IsOpen, PutsLines};
ghost use Rattle.bitcode_write.specs.Entries.{variable_of, function_of, alias_of, alias_type_operands, initialiser_operands, IsVariable, IsAlias};

use crate::records::RecordSink;
use module_arena::{Alias, AliasType, Function, Parameter, Variable};
use record_table::{ALIAS, FUNCTION, VARIABLE};
use record_write::operands::{
    Numbering, put_alignment, put_constant, put_count, put_flag, put_linkage, put_text,
};
use std::alloc::AllocError;

/// Appends whether a variable has an initialiser, and the initialiser.
fn put_initialiser(
    operands: &mut Vec<u64>,
    numbering: &Numbering<'_>,
    variable: &Variable,
) -> Result<(), AllocError>
    requires known { KnowsVariable (length numbering.now.table.types) (length numbering.now.constants) variable.now }
    requires fits { IsVariable numbering.now variable.now }
    ensures { OnOk result (operands.new.items ≡ operands.old.items ++ initialiser_operands numbering.now variable.now) }
{
    match variable.initialiser {
        Some(constant) => {
            put_flag(operands, true)?;
            let wide = numbering.is_wide(variable.ty);
            put_constant(operands, numbering, wide, constant)
        }
        None => put_flag(operands, false),
    }
}

/// Appends a variable.
fn put_variable_parts(
    operands: &mut Vec<u64>,
    numbering: &Numbering<'_>,
    variable: &Variable,
) -> Result<(), AllocError>
    requires known { KnowsVariable (length numbering.now.table.types) (length numbering.now.constants) variable.now }
    requires fits { IsVariable numbering.now variable.now }
    ensures { OnOk result (operands.new.items ≡ operands.old.items ++ (records.variable (texts numbering.now) (indices numbering.now)).spell (variable_of numbering.now variable.now)) }
{
    put_text(operands, numbering, variable.name.text().bytes())?;
    put_linkage(operands, variable.linkage)?;
    put_flag(operands, variable.constant)?;
    numbering.put_type(operands, variable.ty)?;
    put_alignment(operands, variable.alignment)?;
    put_initialiser(operands, numbering, variable)
}

/// Writes the record of a variable.
pub(crate) fn put_variable(
    out: &mut RecordSink,
    numbering: &Numbering<'_>,
    variable: &Variable,
) -> Result<(), AllocError>
    requires ready { IsOpen out.old.writer }
    requires empty { out.old.operands.items ≡ [] }
    requires known { KnowsVariable (length numbering.now.table.types) (length numbering.now.constants) variable.now }
    requires fits { IsVariable numbering.now variable.now }
    ensures put { OnOk result (PutsLines out.old.writer ((5, (records.variable (texts numbering.now) (indices numbering.now)).spell (variable_of numbering.now variable.now)) ∷ []) out.new.writer) }
    ensures none { OnOk result (out.new.operands.items ≡ []) }
{
    put_variable_parts(&mut out.operands, numbering, variable)?;
    out.put(VARIABLE)
}

/// Appends how many parameters there are, and their types.
fn put_parameter_types(
    operands: &mut Vec<u64>,
    numbering: &Numbering<'_>,
    parameters: &[Parameter],
) -> Result<(), AllocError>
    requires { All (λ p. p.ty < length numbering.now.table.types) parameters.now }
    ensures { OnOk result (operands.new.items ≡ operands.old.items ++ (counted (ty (indices numbering.now))).spell (map (λ p. tree numbering.now.table p.ty) parameters.now)) }
{
    put_count(operands, parameters.len())?;
    'parts: for place in 0..parameters.len() {
        let parameter = &parameters[place];
        numbering.put_type(operands, parameter.ty)?;
    }
    Ok(())
}

/// Appends a function, first whether it is defined.
fn put_function_parts(
    operands: &mut Vec<u64>,
    numbering: &Numbering<'_>,
    function: &Function,
) -> Result<(), AllocError>
    requires { KnowsFunction (length numbering.now.table.types) (length numbering.now.constants) function.now }
    ensures { OnOk result (operands.new.items ≡ operands.old.items ++ (records.function (texts numbering.now) (indices numbering.now)).spell (is_some function.now.body, function_of numbering.now function.now)) }
{
    put_text(operands, numbering, function.name.text().bytes())?;
    put_linkage(operands, function.linkage)?;
    put_flag(operands, function.body.is_some())?;
    numbering.put_type(operands, function.result)?;
    put_flag(operands, function.variadic)?;
    put_parameter_types(operands, numbering, function.parameters.as_slice())
}

/// Writes the record of a function.
pub(crate) fn put_function(
    out: &mut RecordSink,
    numbering: &Numbering<'_>,
    function: &Function,
) -> Result<(), AllocError>
    requires ready { IsOpen out.old.writer }
    requires empty { out.old.operands.items ≡ [] }
    requires known { KnowsFunction (length numbering.now.table.types) (length numbering.now.constants) function.now }
    ensures put { OnOk result (PutsLines out.old.writer ((6, (records.function (texts numbering.now) (indices numbering.now)).spell (is_some function.now.body, function_of numbering.now function.now)) ∷ []) out.new.writer) }
    ensures none { OnOk result (out.new.operands.items ≡ []) }
{
    put_function_parts(&mut out.operands, numbering, function)?;
    out.put(FUNCTION)
}

/// Appends what an alias says of its target: 0 and a type, or 1 and a function type.
fn put_alias_type(
    operands: &mut Vec<u64>,
    numbering: &Numbering<'_>,
    ty: &AliasType,
) -> Result<(), AllocError>
    requires { All (λ id. id < length numbering.now.table.types) (alias_types ty.now) }
    ensures { OnOk result (operands.new.items ≡ operands.old.items ++ alias_type_operands numbering.now ty.now) }
{
    match ty {
        AliasType::Plain(ty) => {
            put_flag(operands, false)?;
            numbering.put_type(operands, *ty)
        }
        AliasType::Function(returns, parameters, variadic) => {
            put_flag(operands, true)?;
            numbering.put_type(operands, *returns)?;
            put_flag(operands, *variadic)?;
            numbering.put_types(operands, parameters.as_slice())
        }
    }
}

/// Appends an alias.
fn put_alias_parts(
    operands: &mut Vec<u64>,
    numbering: &Numbering<'_>,
    alias: &Alias,
) -> Result<(), AllocError>
    requires known { KnowsAlias (length numbering.now.table.types) (counts numbering.now) alias.now }
    requires fits { IsAlias numbering.now alias.now }
    ensures { OnOk result (operands.new.items ≡ operands.old.items ++ (records.alias (texts numbering.now) (indices numbering.now)).spell (alias_of numbering.now alias.now)) }
{
    put_text(operands, numbering, alias.name.text().bytes())?;
    put_linkage(operands, alias.linkage)?;
    put_alias_type(operands, numbering, &alias.ty)?;
    match alias.target {
        Some(target) => numbering.put_global(operands, target),
        None => Ok(()),
    }
}

/// Writes the record of an alias.
pub(crate) fn put_alias(
    out: &mut RecordSink,
    numbering: &Numbering<'_>,
    alias: &Alias,
) -> Result<(), AllocError>
    requires ready { IsOpen out.old.writer }
    requires empty { out.old.operands.items ≡ [] }
    requires known { KnowsAlias (length numbering.now.table.types) (counts numbering.now) alias.now }
    requires fits { IsAlias numbering.now alias.now }
    ensures put { OnOk result (PutsLines out.old.writer ((7, (records.alias (texts numbering.now) (indices numbering.now)).spell (alias_of numbering.now alias.now)) ∷ []) out.new.writer) }
    ensures none { OnOk result (out.new.operands.items ≡ []) }
{
    put_alias_parts(&mut out.operands, numbering, alias)?;
    out.put(ALIAS)
}
