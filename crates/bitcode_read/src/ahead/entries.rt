//! Entries out of what their records begin with.
ghost use Rattle.std.specs.Prelude.{◌≡◌, ◌+◌, slice_get, IfOk};
ghost use Rattle.bitcode_read.specs.Ahead.Entries.{name_or_number, parameters_called, whole_alias, whole_function, whole_variable};

use crate::head::{AliasFront, FunctionFront, VariableFront};
use ir_base::ItemList;
use module_arena::{Alias, Function, LocalName, Parameter, ParameterList, Variable};
use std::alloc::{AllocError, Global};
use type_table::TypeId;

/// A variable without an initialiser, where all of it is known.
pub(crate) fn variable_of(front: VariableFront) -> Option<Variable>
    ensures { result ≡ whole_variable front.name front.linkage front.constant front.ty front.alignment }
{
    let VariableFront {
        name,
        linkage,
        constant,
        ty,
        alignment,
    } = front;
    Some(Variable {
        name: name?,
        linkage,
        constant,
        ty: ty?,
        alignment,
        initialiser: None,
    })
}

/// An equal name of its own.
fn copy_name(alloc: Global, name: &LocalName) -> Result<LocalName, AllocError>
    ensures { IfOk result (λ copy. copy ≡ name.now) }
{
    match name {
        LocalName::Named(text) => {
            let text = text.copy(alloc)?;
            Ok(LocalName::Named(text))
        }
        LocalName::Numbered(number) => Ok(LocalName::Numbered(*number)),
    }
}

/// What stands at that place of these names, or its number where they are fewer.
fn name_at(alloc: Global, names: &[LocalName], place: u32) -> Result<LocalName, AllocError>
    ensures { IfOk result (λ name. name ≡ name_or_number names.now place) }
{
    match names.get(place as usize) {
        Some(name) => {
            let copy = copy_name(alloc, name)?;
            Ok(copy)
        }
        None => Ok(LocalName::Numbered(place)),
    }
}

/// The type at that place, if there is one.
fn type_at(types: &[TypeId], place: u32) -> Option<TypeId>
    ensures { result ≡ slice_get types.now place }
{
    match types.get(place as usize) {
        Some(ty) => Some(*ty),
        None => None,
    }
}

/// One place further. More than 32 bits count are more than memory holds.
fn next_place(place: u32) -> Result<u32, AllocError>
    ensures { IfOk result (λ next. next ≡ place + 1) }
{
    place.checked_add(1).ok_or(AllocError)
}

/// Parameters of these types, which are called so, or numbered from 0 where nothing calls them.
fn parameters_of(
    alloc: Global,
    types: &[TypeId],
    names: &[LocalName],
) -> Result<ParameterList, AllocError>
    ensures { IfOk result (λ parameters. parameters ≡ parameters_called names.now 0 types.now) }
{
    let mut parameters = Vec::new(alloc);
    let mut place: u32 = 0;
    'places: loop {
        match type_at(types, place) {
            Some(ty) => {
                let name = name_at(alloc, names, place)?;
                parameters.push(Parameter { ty, name })?;
                place = next_place(place)?;
            }
            None => return Ok(ItemList::from_vec(parameters)),
        }
    }
}

/// A function without a body, whose parameters are called so, where all of it is known.
pub(crate) fn function_of(
    alloc: Global,
    front: FunctionFront,
    names: &[LocalName],
) -> Result<Option<Function>, AllocError>
    ensures { IfOk result (λ function. function ≡ whole_function names.now front.name front.linkage front.returns front.variadic front.parameters) }
{
    let FunctionFront {
        name,
        linkage,
        defined: _,
        returns,
        variadic,
        parameters,
    } = front;
    let Some(name) = name else {
        return Ok(None);
    };
    let Some(returns) = returns else {
        return Ok(None);
    };
    let Some(types) = parameters else {
        return Ok(None);
    };
    let parameters = parameters_of(alloc, types.as_slice(), names)?;
    Ok(Some(Function {
        name,
        linkage,
        result: returns,
        parameters,
        variadic,
        body: None,
    }))
}

/// An alias without a target, where all of it is known.
pub(crate) fn alias_of(front: AliasFront) -> Option<Alias>
    ensures { result ≡ whole_alias front.name front.linkage front.ty }
{
    let AliasFront { name, linkage, ty } = front;
    Some(Alias {
        name: name?,
        linkage,
        ty: ty?,
        target: None,
    })
}
