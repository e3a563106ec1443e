//! The ids of an arena, by their numbers.
ghost use Rattle.std.specs.Prelude.{◌<◌, length, All, IfOk};
ghost use Rattle.module_arena.specs.Known.{counts, HasGlobal};

use crate::answer::Refusal;
use ir_base::ItemList;
use module_arena::{
    AliasId, Arena, ConstId, FunctionId, GlobalId, LocalName, Parameter, ParameterList, VariableId,
};
use std::alloc::Global;
use type_table::{StructId, TypeId, TypeList};

/// The type with that number.
pub fn type_id(arena: &Arena, number: u64) -> Result<TypeId, Refusal>
    ensures { IfOk result (λ id. id < length arena.now.table.types) }
{
    if number < arena.types().type_count() {
        Ok(TypeId::new(number))
    } else {
        Err(Refusal::NoCall)
    }
}

/// The struct with that number.
pub fn struct_id(arena: &Arena, number: u64) -> Result<StructId, Refusal>
    ensures { IfOk result (λ id. id < length arena.now.table.structs) }
{
    if number < u64::from(arena.types().struct_count()) {
        Ok(StructId::new(number as u32))
    } else {
        Err(Refusal::NoCall)
    }
}

/// The constant with that number.
pub fn const_id(arena: &Arena, number: u64) -> Result<ConstId, Refusal>
    ensures { IfOk result (λ id. id < length arena.now.constants) }
{
    if number < arena.const_count() {
        Ok(ConstId::new(number))
    } else {
        Err(Refusal::NoCall)
    }
}

/// The variable with that number.
pub fn variable_id(arena: &Arena, number: u64) -> Result<VariableId, Refusal>
    ensures { IfOk result (λ id. id < length arena.now.variables) }
{
    if number < u64::from(arena.variable_count()) {
        Ok(VariableId::new(number as u32))
    } else {
        Err(Refusal::NoCall)
    }
}

/// The function with that number.
pub fn function_id(arena: &Arena, number: u64) -> Result<FunctionId, Refusal>
    ensures { IfOk result (λ id. id < length arena.now.functions) }
{
    if number < u64::from(arena.function_count()) {
        Ok(FunctionId::new(number as u32))
    } else {
        Err(Refusal::NoCall)
    }
}

/// The alias with that number.
pub fn alias_id(arena: &Arena, number: u64) -> Result<AliasId, Refusal>
    ensures { IfOk result (λ id. id < length arena.now.aliases) }
{
    if number < u64::from(arena.alias_count()) {
        Ok(AliasId::new(number as u32))
    } else {
        Err(Refusal::NoCall)
    }
}

/// The entry of that kind with that number.
pub fn entry_id(arena: &Arena, kind: &str, number: u64) -> Result<GlobalId, Refusal>
    ensures { IfOk result (HasGlobal (counts arena.now)) }
{
    match kind {
        "variable" => Ok(GlobalId::Variable(variable_id(arena, number)?)),
        "function" => Ok(GlobalId::Function(function_id(arena, number)?)),
        "alias" => Ok(GlobalId::Alias(alias_id(arena, number)?)),
        _ => Err(Refusal::NoCall),
    }
}

/// The types with these numbers.
pub fn type_ids(alloc: Global, arena: &Arena, numbers: &[u64]) -> Result<TypeList, Refusal>
    ensures { IfOk result (λ list. All (λ ty. ty < length arena.now.table.types) list) }
{
    let mut list = ItemList::new(alloc);
    for number in numbers {
        list.push(type_id(arena, *number)?)?;
    }
    Ok(list)
}

/// Parameters of the types with these numbers, numbered in order.
pub fn parameters(alloc: Global, arena: &Arena, numbers: &[u64]) -> Result<ParameterList, Refusal>
    ensures { IfOk result (λ list. All (λ p. p.ty < length arena.now.table.types) list) }
{
    let mut list = ItemList::new(alloc);
    let mut next: u32 = 0;
    for number in numbers {
        let ty = type_id(arena, *number)?;
        let name = LocalName::Numbered(next);
        list.push(Parameter { ty, name })?;
        next = next.saturating_add(1);
    }
    Ok(list)
}
