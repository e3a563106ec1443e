//! The measures of all types and structs, in passes over the table.
ghost use Rattle.std.specs.Prelude.{◌≡◌, ℕ, ◌+◌, ◌<◌, ◌≤◌, ◌↔◌, ◌++◌, IsTrue, true, All, Any, length, set, slice_index_or, IfOk, IfErr, IfSome, OnOk, Some, None};
ghost use Rattle.indexmap.specs.IndexMap.{values, index_map_len};
ghost use Rattle.type_table.specs.Kept.{IsSmall, IsLarge, HasListFault};
ghost use Rattle.type_table.specs.Outline.{offset_from};
ghost use Rattle.type_table.specs.Measures.{empty_struct, struct_measure, measures_at, opaque_measure, type_measure, body_measure, type_measures, struct_measures, passes, deepest_nesting};
ghost use Rattle.type_table.specs.Batch.{IsOpen, set_from};

use crate::measure::{Measure, NESTING_LIMIT};
use crate::structs::StructMap;
use crate::{IrType, StructBody, TypeFault, TypeId, TypeList};
use std::alloc::{AllocError, Global};

/// The measures of the structs, by their ids, and of the types.
#[derive(Drop)]
pub(crate) struct Measures {
    pub(crate) structs: Vec<Measure>,
    pub(crate) types: Vec<Measure>,
}

impl Measures {
    /// Equal measures.
    pub(crate) fn copy(&self, alloc: Global) -> Result<Measures, AllocError>
        ensures types { IfOk result (λ copy. copy.types.items ≡ self.now.types.items) }
        ensures structs { IfOk result (λ copy. copy.structs.items ≡ self.now.structs.items) }
    {
        Ok(Measures {
            structs: Vec::from_slice(alloc, &self.structs)?,
            types: Vec::from_slice(alloc, &self.types)?,
        })
    }

    /// Refuses measures past their limits: a type too deep, or else one too large.
    pub(crate) fn check(&self) -> Result<(), TypeFault>
        ensures small { OnOk result (All IsSmall (self.now.types.items ++ self.now.structs.items)) }
        ensures fault { IfErr result (HasListFault (self.now.types.items ++ self.now.structs.items)) }
    {
        if self.any_too_deep() {
            return Err(TypeFault::TooDeep);
        }
        if self.any_too_large() {
            return Err(TypeFault::TooLarge);
        }
        Ok(())
    }

    fn any_too_deep(&self) -> bool
        ensures { IsTrue result
            ↔ Any (λ m. NESTING_LIMIT < m.nesting) (self.now.types.items ++ self.now.structs.items) }
    {
        some_too_deep(&self.types) || some_too_deep(&self.structs)
    }

    fn any_too_large(&self) -> bool
        ensures { IsTrue result ↔ Any IsLarge (self.now.types.items ++ self.now.structs.items) }
    {
        some_too_large(&self.types) || some_too_large(&self.structs)
    }
}

fn some_too_deep(measures: &[Measure]) -> bool
    ensures { IsTrue result ↔ Any (λ m. NESTING_LIMIT < m.nesting) measures.now }
{
    measures
        .iter()
        .any(|measure| measure.nesting > NESTING_LIMIT)
}

fn some_too_large(measures: &[Measure]) -> bool
    ensures { IsTrue result ↔ Any IsLarge measures.now }
{
    measures.iter().any(|measure| measure.is_too_large())
}

/// How deep the deepest of these nests.
fn deepest(measures: &[Measure]) -> u8
    ensures { result ≡ deepest_nesting measures.now }
{
    let mut deepest = 0;
    for measure in measures {
        deepest = deepest.max(measure.nesting);
    }
    deepest
}

/// The measure under that index. Ids are those of the table, so there is one.
pub(crate) fn measure_at(measures: &[Measure], index: usize) -> Measure
    ensures { result ≡ slice_index_or measures.now index opaque_measure }
{
    if index < measures.len() {
        measures[index]
    } else {
        Measure::opaque()
    }
}

/// A struct with those fields.
fn measure_fields(packed: bool, types: &[Measure], fields: &TypeList) -> Measure
    ensures { result ≡ struct_measure packed (measures_at types.now fields.now) }
{
    let mut sofar = Measure::empty_struct();
    for i in 0..fields.len() {
        let field = measure_at(types, fields.at(i).number() as usize);
        sofar = sofar.with_field(packed, field);
    }
    sofar.closed()
}

/// Where the field with that index begins in a struct with those fields.
pub(crate) fn field_offset(
    packed: bool,
    types: &[Measure],
    fields: &[TypeId],
    field: usize,
) -> Option<u64>
    ensures { result ≡ offset_from packed empty_struct (measures_at types.now fields.now) field }
{
    if field >= fields.len() {
        return None;
    }
    let mut sofar = Measure::empty_struct();
    for i in 0..field {
        sofar = sofar.with_field(packed, measure_at(types, fields[i].number() as usize));
    }
    sofar.next_offset(packed, measure_at(types, fields[field].number() as usize))
}

/// A type, from the measures of the structs and of the types before it.
pub(crate) fn measure_type(structs: &[Measure], types: &[Measure], ty: &IrType) -> Measure
    ensures { result ≡ type_measure structs.now types.now ty.now }
{
    match ty {
        IrType::Int(width) => Measure::int(*width),
        IrType::Ptr => Measure::ptr(),
        IrType::Void => Measure::void(),
        IrType::Array(length, element) => {
            Measure::array(*length, measure_at(types, element.number() as usize))
        }
        IrType::Struct(packed, fields) => measure_fields(*packed, types, fields),
        IrType::Named(id) => measure_at(structs, id.number() as usize),
    }
}

/// A struct with that body. One without fields keeps the measure that it had.
pub(crate) fn measure_body(types: &[Measure], had: Measure, body: &StructBody) -> Measure
    ensures { result ≡ body_measure types.now had (Some body.now) }
{
    match body {
        StructBody::Opaque => had,
        StructBody::Plain(fields) => measure_fields(false, types, fields),
        StructBody::Packed(fields) => measure_fields(true, types, fields),
    }
}

/// A struct, from the measures of the types. One that is not defined keeps the measure that it had.
fn measure_struct(types: &[Measure], had: Measure, body: &Option<StructBody>) -> Measure
    ensures { result ≡ body_measure types.now had body.now }
{
    match body {
        None => had,
        Some(body) => measure_body(types, had, body),
    }
}

/// The types, from the measures of the structs.
fn measure_types(
    alloc: Global,
    structs: &[Measure],
    types: &[IrType],
) -> Result<Vec<Measure>, AllocError>
    ensures { IfOk result (λ measures. measures.items ≡ type_measures structs.now types.now) }
{
    let mut measures = Vec::with_capacity(alloc, types.len())?;
    for ty in types {
        let measure = measure_type(structs, &measures, ty);
        measures.push(measure)?;
    }
    Ok(measures)
}

/// The structs, from the measures of the types.
fn measure_structs(
    alloc: Global,
    types: &[Measure],
    had: &[Measure],
    structs: &StructMap,
) -> Result<Vec<Measure>, AllocError>
    requires { length had.now ≡ index_map_len structs.now }
    ensures { IfOk result (λ measures.
        measures.items ≡ struct_measures types.now had.now (values structs.now)) }
{
    let mut measures = Vec::with_capacity(alloc, had.len())?;
    for i in 0..had.len() {
        let measure = measure_struct(types, had[i], &structs[i]);
        measures.push(measure)?;
    }
    Ok(measures)
}

/// The measures of a table, after so many passes over it from the structs' measures `start`. A struct
/// without fields keeps the measure that it has there.
fn settle(
    alloc: Global,
    types: &[IrType],
    structs: &StructMap,
    start: Vec<Measure>,
    count: u8,
) -> Result<Measures, AllocError>
    requires { length start.items ≡ index_map_len structs.now }
    ensures structs { IfOk result (λ measures.
        measures.structs.items ≡ passes types.now (values structs.now) start.items count) }
    ensures types { IfOk result (λ measures.
        measures.types.items ≡ type_measures measures.structs.items types.now) }
{
    let mut measured = start;
    for _pass in 0..count {
        let measured_types = measure_types(alloc, &measured, types)?;
        measured = measure_structs(alloc, &measured_types, &measured, structs)?;
    }
    let measured_types = measure_types(alloc, &measured, types)?;
    Ok(Measures {
        structs: measured,
        types: measured_types,
    })
}

/// The measures of a table whose struct at that place measures as told, from those that are kept of
/// the structs. As many passes are made as the deepest struct nests.
pub(crate) fn remeasured(
    alloc: Global,
    kept: &[Measure],
    types: &[IrType],
    structs: &StructMap,
    index: usize,
    measure: Measure,
) -> Result<Measures, AllocError>
    requires as_many { length kept.now ≡ index_map_len structs.now }
    requires within { index < length kept.now }
    ensures structs { IfOk result (λ measures. measures.structs.items
        ≡ passes types.now (values structs.now) (set kept.now index measure) (deepest_nesting kept.now)) }
    ensures types { IfOk result (λ measures.
        measures.types.items ≡ type_measures measures.structs.items types.now) }
{
    let mut start = Vec::from_slice(alloc, kept)?;
    start[index] = measure;
    settle(alloc, types, structs, start, deepest(kept))
}

/// The struct at that place, where those from the first on have these bodies.
fn measure_one(
    types: &[Measure],
    had: Measure,
    structs: &StructMap,
    first: usize,
    given: &[StructBody],
    index: usize,
) -> Measure
    requires within { index < index_map_len structs.now }
    requires fit { first + length given.now ≤ index_map_len structs.now }
    ensures { result
        ≡ body_measure types.now had (slice_index_or (set_from (values structs.now) first given.now) index None) }
{
    if first <= index && index - first < given.len() {
        measure_body(types, had, &given[index - first])
    } else {
        measure_struct(types, had, &structs[index])
    }
}

/// The structs, from the measures of the types, where those from the first on have these bodies.
fn measure_given(
    alloc: Global,
    types: &[Measure],
    had: &[Measure],
    structs: &StructMap,
    first: usize,
    given: &[StructBody],
) -> Result<Vec<Measure>, AllocError>
    requires as_many { length had.now ≡ index_map_len structs.now }
    requires fit { first + length given.now ≤ index_map_len structs.now }
    ensures { IfOk result (λ measures.
        measures.items ≡ struct_measures types.now had.now (set_from (values structs.now) first given.now)) }
{
    let mut measures = Vec::with_capacity(alloc, had.len())?;
    for i in 0..had.len() {
        let measure = measure_one(types, had[i], structs, first, given, i);
        measures.push(measure)?;
    }
    Ok(measures)
}

/// Whether the measures are the same.
fn are_same(one: &[Measure], other: &[Measure]) -> bool
    ensures { result ≡ true → one.now ≡ other.now }
{
    if one.len() != other.len() {
        return false;
    }
    for i in 0..one.len() {
        if !one[i].is_same(other[i]) {
            return false;
        }
    }
    true
}

/// How many passes tell of every table within its limits that one more changes nothing.
const MOST_PASSES: u8 = NESTING_LIMIT + 1;

/// The measures of the table in which structs have these bodies, the first of them that at this place, found by passes
/// over all of it from those that are kept of the structs, until one changes nothing. None where none was such a pass.
pub(crate) fn at_rest(
    alloc: Global,
    kept: &[Measure],
    types: &[IrType],
    structs: &StructMap,
    first: usize,
    given: &[StructBody],
) -> Result<Option<Measures>, AllocError>
    requires as_many { length kept.now ≡ index_map_len structs.now }
    requires fit { first + length given.now ≤ index_map_len structs.now }
    ensures rest { IfOk result (λ found. IfSome found (λ m.
        struct_measures m.types.items m.structs.items (set_from (values structs.now) first given.now) ≡ m.structs.items)) }
    ensures types { IfOk result (λ found. IfSome found (λ m. m.types.items ≡ type_measures m.structs.items types.now)) }
    ensures many { IfOk result (λ found. IfSome found (λ m. length m.structs.items ≡ index_map_len structs.now)) }
    ensures kept { IfOk result (λ found. IfSome found (λ m. (k : ℕ)
        → IsOpen (slice_index_or (set_from (values structs.now) first given.now) k None)
        → slice_index_or m.structs.items k opaque_measure ≡ slice_index_or kept.now k opaque_measure)) }
{
    let mut measured = Vec::from_slice(alloc, kept)?;
    'passes: for _pass in 0..MOST_PASSES {
        let types_then = measure_types(alloc, &measured, types)?;
        let again = measure_given(alloc, &types_then, &measured, structs, first, given)?;
        if are_same(&again, &measured) {
            return Ok(Some(Measures {
                structs: measured,
                types: types_then,
            }));
        }
        measured = again;
    }
    Ok(None)
}
