//! Measures the structs of a text, and any type that names them.
ghost use Rattle.std.specs.Prelude.{◌≡◌, ◌<◌, ◌^◌, [], ◌∷◌, ◌++◌, ℕ, Option, Some, None, map, length, slice_index_or, is_some, IfOk, OnOk, true, option_map};
ghost use Rattle.ir_phrases.specs.Constants.Tree.{types};
ghost use Rattle.ir_phrases.specs.Constants.View.{type_view};
ghost use Rattle.ir_syntax.specs.View.{body_view, item_view, items_view};
ghost use Rattle.type_table.specs.Measures.{array_measure, opaque_measure, struct_measure};
ghost use Rattle.name_rules.specs.Measured.{tree_measured, all_measured, body_measured, look_in, struct_measures, names_of};
ghost use Rattle.name_rules.specs.ModuleOf.{structs_in};
ghost use Rattle.name_rules.specs.TypeDemands.{has_name};
ghost use Rattle.name_rules.specs.Written.{natural, type_in, types_in, body_in};
ghost use Rattle.type_judge.specs.Order.Order.{stands_in};
ghost use Rattle.type_judge.specs.Order.Measuring.{measure_in, bodies_in, bodies_of, array_length, with_measure, with_measures, AreMeasured, structs_of};

use crate::order::dependency_order;
use crate::order::mentions::struct_numbers;
use ir_phrases::constants::Type;
use ir_syntax::{Item, Items, WrittenBody};
use ir_terminals::Integer;
use std::alloc::{AllocError, Global};
use type_table::Measure;
use type_table::names::NameTable;

/// The measures of structs that are known so far, by the numbers of the structs.
#[derive(Drop)]
pub(crate) struct MeasureTable<'a> {
    numbers: NameTable<'a, u32>,
    measures: Vec<Option<Measure>>,
}

/// The measure of the struct with that name, if it is known. A name of no struct counts as an opaque struct.
fn named_measure(table: &MeasureTable, name: &[u8]) -> Option<Measure>
    ensures { result ≡ measure_in table.now name.now }
{
    match table.numbers.get(name) {
        None => Some(Measure::opaque()),
        Some(number) => match table.measures.get(number as usize) {
            Some(measure) => *measure,
            None => Some(Measure::opaque()),
        },
    }
}

/// The length of an array, cut where it is past 64 bits; no size that is not too large tells the difference.
fn array_length(count: &Integer) -> u64
    ensures { result ≡ array_length (natural count.now) }
{
    if count.negative {
        return 0;
    }
    count.magnitude.to_u64().unwrap_or(u64::MAX)
}

/// The measure of an array of so many such elements.
fn array_measure(count: &Integer, element: Measure) -> Measure
    ensures { result ≡ array_measure (natural count.now) element }
{
    Measure::array(array_length(count), element)
}

/// The measure of a type, if the measures of the structs that it names are known.
#[cycle(measures)]
fn type_measure(table: &MeasureTable, ty: &Type) -> Option<Measure>
    ensures { result ≡ tree_measured (measure_in table.now) (type_in (type_view ty.now)) }
{
    match ty {
        Type::Integer(_, width) => Some(Measure::int(*width)),
        Type::Ptr(_) => Some(Measure::ptr()),
        Type::Void(_) => Some(Measure::void()),
        Type::Array(_, array) => {
            let element = type_measure(table, &array.element)?;
            Some(array_measure(&array.count, element))
        }
        Type::Struct(_, packed, fields) => fields_measure(table, *packed, fields),
        Type::Named(name) => named_measure(table, name.name.bytes()),
    }
}

/// The measure of a struct with these fields, likewise.
#[cycle(measures)]
fn fields_measure(table: &MeasureTable, packed: bool, fields: &[Type]) -> Option<Measure>
    ensures { result ≡ option_map (struct_measure packed) (all_measured (measure_in table.now) (types_in (types (map type_view fields.now)))) }
{
    let mut sofar = Measure::empty_struct();
    'fields: for field in fields {
        sofar = sofar.with_field(packed, type_measure(table, field)?);
    }
    Some(sofar.closed())
}

/// The measure of a struct with that body, likewise.
fn body_measure(table: &MeasureTable, body: &WrittenBody) -> Option<Measure>
    ensures { result ≡ body_measured (measure_in table.now) (body_in (body_view body.now)) }
{
    match body {
        WrittenBody::Opaque => Some(Measure::opaque()),
        WrittenBody::Plain(fields) => fields_measure(table, false, fields),
        WrittenBody::Packed(fields) => fields_measure(table, true, fields),
    }
}

/// The bodies of the structs, in the order of the text.
fn struct_bodies<'a>(alloc: Global, items: &'a Items) -> Result<Vec<&'a WrittenBody>, AllocError>
    ensures { IfOk result (λ bodies. bodies_in bodies.items ≡ bodies_of (structs_in (items_view items.now))) }
{
    let mut bodies = Vec::new(alloc);
    'items: for item in items.as_slice() {
        add_body(item, &mut bodies)?;
    }
    Ok(bodies)
}

/// Adds the body of the item, where it is a struct.
fn add_body<'a>(item: &'a Item, bodies: &mut Vec<&'a WrittenBody>) -> Result<(), AllocError>
    ensures { OnOk result (bodies_in bodies.new.items ≡ bodies_in bodies.old.items ++ bodies_of (structs_in (item_view item.now ∷ []))) }
{
    match item {
        Item::Struct { body, .. } => {
            bodies.push(body)?;
            Ok(())
        }
        _ => Ok(()),
    }
}

/// Gives the struct with that number the measure of its body.
fn measure_struct(table: &mut MeasureTable, bodies: &[&WrittenBody], number: usize)
    requires { number < length bodies.now }
    ensures numbers { table.new.numbers ≡ table.old.numbers }
    ensures measures { table.new.measures.items ≡ with_measure table.old.numbers (bodies_in bodies.now) table.old.measures.items number }
{
    let measure = body_measure(table, bodies[number]);
    if number < table.measures.len() {
        table.measures[number] = measure;
    }
}

/// Gives the structs their measures, in that order.
fn measure_along(table: &mut MeasureTable, bodies: &[&WrittenBody], order: &[u32])
    requires { (number : ℕ) → stands_in order.now number ≡ true → number < length bodies.now }
    ensures numbers { table.new.numbers ≡ table.old.numbers }
    ensures measures { table.new.measures.items ≡ with_measures table.old.numbers (bodies_in bodies.now) table.old.measures.items order.now }
{
    'order: for number in order {
        measure_struct(table, bodies, *number as usize);
    }
}

/// No measure is known of structs with these bodies.
fn unmeasured<'a>(
    alloc: Global,
    numbers: NameTable<'a, u32>,
    bodies: &[&WrittenBody],
) -> Result<MeasureTable<'a>, AllocError>
    ensures numbers { IfOk result (λ table. table.numbers ≡ numbers.entry) }
    ensures count { IfOk result (λ table. length table.measures.items ≡ length bodies.now) }
    ensures none { IfOk result (λ table. (number : ℕ) → number < length bodies.now → slice_index_or table.measures.items number (Some opaque_measure) ≡ None) }
{
    let mut measures = Vec::new(alloc);
    'bodies: for _body in bodies {
        measures.push(None)?;
    }
    Ok(MeasureTable { numbers, measures })
}

/// The structs of a text, with their measures.
#[derive(Drop)]
pub struct StructMeasures<'a> {
    items: &'a Items,
    table: MeasureTable<'a>,
}

impl<'a> StructMeasures<'a> {
    /// Measures the structs of a text, which it keeps with it.
    pub fn of_items(alloc: Global, items: &'a Items) -> Result<Self, AllocError>
        requires { length (structs_in (items_view items.now)) < 2 ^ 32 }
        ensures measured { IfOk result AreMeasured }
        ensures items { IfOk result (λ all. structs_of all ≡ structs_in (items_view items.now)) }
    {
        let numbers = struct_numbers(alloc, items)?;
        let order = dependency_order(alloc, items)?;
        let bodies = struct_bodies(alloc, items)?;
        let mut table = unmeasured(alloc, numbers, &bodies)?;
        measure_along(&mut table, &bodies, &order);
        Ok(StructMeasures { items, table })
    }

    /// Whether a struct has the name.
    pub fn has(&self, name: &[u8]) -> bool
        requires { AreMeasured self.now }
        ensures { result ≡ has_name (names_of (structs_of self.now)) name.now }
    {
        self.table.numbers.get(name).is_some()
    }

    /// The measure of a type, by those of the structs. There is none where it holds by value a struct that contains itself.
    pub fn measure_of(&self, ty: &Type) -> Option<Measure>
        requires { AreMeasured self.now }
        ensures { result ≡ tree_measured (look_in (structs_of self.now) (struct_measures (structs_of self.now))) (type_in (type_view ty.now)) }
    {
        type_measure(&self.table, ty)
    }
}
