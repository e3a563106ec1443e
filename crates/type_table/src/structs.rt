//! The named structs, as a map from their names to their bodies. A struct's id is its place in the map.
ghost use Rattle.std.specs.Prelude.{◌≡◌, IsTrue, ◌+◌, ◌<◌, ◌≤◌, ◌↔◌, List, length, [], ◌∷◌, ◌++◌, slice_get, Some, None, Contains, IsSome, IfOk, IfSome, OnOk, OnErr, AllPairs, ◌≢◌};
ghost use Rattle.indexmap.specs.IndexMap.{keys, index_map_len, set_value_at};
ghost use Rattle.type_table.specs.declared.ir_type.IrType.{IrType};
ghost use Rattle.type_table.specs.Batch.{with_bodies};

use crate::StructBody;
use indexmap::IndexMap;
use ir_base::Name;
use std::alloc::{AllocError, Global};

/// The structs in the order of their names' making. One that is not defined has no body.
pub(crate) type StructMap = IndexMap<Name, Option<StructBody>>;

/// Whether a struct has the name.
pub(crate) fn has_name(structs: &StructMap, name: &Name) -> bool
    ensures { IsTrue result ↔ Contains (keys structs.now) name.now }
{
    structs.contains_key(name)
}

/// The place of the struct with that name.
pub(crate) fn place_of(structs: &StructMap, name: &Name) -> Option<usize>
    ensures found { IfSome result (λ i. slice_get (keys structs.now) i ≡ Some name.now) }
    ensures present { IsSome result ↔ Contains (keys structs.now) name.now }
    ensures within { IfSome result (λ i. i < index_map_len structs.now) }
{
    structs.get_index_of(name)
}

/// The name of the struct at that place.
pub(crate) fn name_at(structs: &StructMap, index: usize) -> &Name
    requires { index < index_map_len structs.now }
    ensures { slice_get (keys structs.now) index ≡ Some result.now }
{
    let (name, _) = structs.as_slice().get_index(index).unwrap();
    name
}

/// Adds a struct with that body, or with none.
pub(crate) fn add_struct(
    structs: &mut StructMap,
    name: Name,
    body: Option<StructBody>,
) -> Result<(), AllocError>
    requires { ¬ Contains (keys structs.old) name }
    ensures added { OnOk result (structs.new.entries ≡ structs.old.entries ++ (name, body) ∷ []) }
    ensures err { OnErr result (structs.new.entries ≡ structs.old.entries) }
{
    structs.insert(name, body)?;
    Ok(())
}

/// Gives the struct at that place its body.
pub(crate) fn set_body(structs: &mut StructMap, index: usize, body: StructBody)
    requires { index < index_map_len structs.old }
    ensures { structs.new.entries ≡ set_value_at structs.old.entries index (Some body) }
{
    structs[index] = Some(body);
}

/// Gives structs their bodies, the first of them that at this place.
pub(crate) fn set_bodies(structs: &mut StructMap, first: usize, given: Vec<StructBody>)
    requires { first + length given.items ≤ index_map_len structs.old }
    ensures { (types : List IrType) → with_bodies (record { types = types; structs = structs.old.entries }) first given.items
        ≡ record { types = types; structs = structs.new.entries } }
{
    let _count = structs.len();
    let mut index = first;
    let mut rest = given.into_iter();
    'bodies: while let Some(body) = rest.next() {
        set_body(structs, index, body);
        index += 1;
    }
}

/// An equal body, or none where there is none.
fn copy_body(alloc: Global, body: &Option<StructBody>) -> Result<Option<StructBody>, AllocError>
    ensures { IfOk result (λ copy. copy ≡ body.now) }
{
    match body {
        None => Ok(None),
        Some(body) => Ok(Some(body.copy(alloc)?)),
    }
}

/// An equal map of structs whose names are distinct.
pub(crate) fn copy_structs(alloc: Global, structs: &StructMap) -> Result<StructMap, AllocError>
    requires { AllPairs (λ a b. a ≢ b) (keys structs.now) }
    ensures { IfOk result (λ copy. copy.entries ≡ structs.now.entries) }
{
    let mut copy = IndexMap::new(alloc);
    for i in 0..structs.len() {
        let name = name_at(structs, i).copy(alloc)?;
        let body = copy_body(alloc, &structs[i])?;
        add_struct(&mut copy, name, body)?;
    }
    Ok(copy)
}
