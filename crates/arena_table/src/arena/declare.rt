//! Variables, functions and aliases.
use crate::answer::{Answer, Refusal, entry};
use crate::known::{parameters, type_id};
use crate::word::name;
use ir_base::Name;
use ir_tables::Linkage;
use module_arena::{Alias, AliasType, Arena, Function, GlobalId, Variable};
use std::alloc::Global;

/// Declares a variable.
fn variable(arena: &mut Arena, name: Name, ty: u64) -> Result<GlobalId, Refusal> {
    let ty = type_id(arena, ty)?;
    let id = arena.declare_variable(Variable {
        name,
        linkage: Linkage::External,
        constant: false,
        ty,
        alignment: None,
        initialiser: None,
    })?;
    Ok(GlobalId::Variable(id))
}

/// Declares a function that returns the first of these types and has the others as parameters.
fn function(
    alloc: Global,
    arena: &mut Arena,
    name: Name,
    types: &[u64],
    variadic: bool,
) -> Result<GlobalId, Refusal> {
    let [first, others @ ..] = types else {
        return Err(Refusal::NoCall);
    };
    let result = type_id(arena, *first)?;
    let parameters = parameters(alloc, arena, others)?;
    let id = arena.declare_function(Function {
        name,
        linkage: Linkage::External,
        result,
        parameters,
        variadic,
        body: None,
    })?;
    Ok(GlobalId::Function(id))
}

/// Declares an alias of a variable of that type.
fn alias(arena: &mut Arena, name: Name, ty: u64) -> Result<GlobalId, Refusal> {
    let ty = AliasType::Plain(type_id(arena, ty)?);
    let id = arena.declare_alias(Alias {
        name,
        linkage: Linkage::Internal,
        ty,
        target: None,
    })?;
    Ok(GlobalId::Alias(id))
}

/// Declares an entry of that kind, with these types.
pub fn declare(
    alloc: Global,
    arena: &mut Arena,
    kind: &str,
    name: Name,
    types: &[u64],
) -> Result<Answer, Refusal> {
    let id = match (kind, types) {
        ("variable", [ty]) => variable(arena, name, *ty)?,
        ("alias", [ty]) => alias(arena, name, *ty)?,
        ("function", _) => function(alloc, arena, name, types, false)?,
        ("variadic", _) => function(alloc, arena, name, types, true)?,
        _ => return Err(Refusal::NoCall),
    };
    Ok(entry(id))
}

/// Declares a number of entries of that kind, whose names are the kind and a number, and gives the
/// last answer.
pub fn repeat(
    alloc: Global,
    arena: &mut Arena,
    kind: &str,
    count: u64,
    types: &[u64],
) -> Result<Answer, Refusal> {
    let mut last = Answer::Said("none");
    for number in 0..count {
        let word = format!(in alloc; "{kind}{number}")?;
        last = declare(alloc, arena, kind, name(alloc, word.as_str())?, types)?;
    }
    Ok(last)
}
