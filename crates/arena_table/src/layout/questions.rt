//! What is asked of types and structs.
//!
//! `layout TYPE`, and `offset TYPE FIELD` in bytes; `same TYPE OTHER`, whether a type of the table
//! before and one of this table have one shape, `alike TYPE OTHER`, whether two of this table
//! have, and `equal TYPE OTHER`, whether those are equal by the ids of their parts;
//! `holds STRUCT`, whether it has a body, `refind STRUCT`, what its name finds, and
//! `is TYPE STRUCT`, whether the type is its name; and `counts`.
ghost use Rattle.std.specs.Prelude.{◌<◌, length, IfOk};

use crate::answer::{Answer, Refusal, found, is};
use indexmap::IndexMap;
use std::alloc::Global;
use type_table::{IrType, Layout, StructId, TypeId, TypeTable};

fn type_id(table: &TypeTable, number: u64) -> Result<TypeId, Refusal>
    ensures { IfOk result (λ ty. ty < length table.now.types) }
{
    if number < table.type_count() {
        Ok(TypeId::new(number))
    } else {
        Err(Refusal::NoCall)
    }
}

fn struct_id(table: &TypeTable, number: u64) -> Result<StructId, Refusal>
    ensures { IfOk result (λ id. id < length table.now.structs) }
{
    if number < u64::from(table.struct_count()) {
        Ok(StructId::new(number as u32))
    } else {
        Err(Refusal::NoCall)
    }
}

/// Answers a question about a table, and the one before it.
pub fn ask(
    alloc: Global,
    before: &TypeTable,
    table: &TypeTable,
    call: &str,
    numbers: &[u64],
) -> Result<Answer, Refusal> {
    match (call, numbers) {
        ("layout", [ty]) => layout(alloc, table.layout(type_id(table, *ty)?)),
        ("offset", [ty, field]) => offset(table, *ty, *field),
        ("same", [ty, other]) => have_one_shape(before, *ty, table, *other),
        ("alike", [ty, other]) => have_one_shape(table, *ty, table, *other),
        ("equal", [ty, other]) => are_equal(table, *ty, *other),
        ("holds", [number]) => {
            let id = struct_id(table, *number)?;
            Ok(is(table.struct_body(id).is_some()))
        }
        ("refind", [number]) => refind(table, *number),
        ("is", [ty, number]) => is_name_of(table, *ty, *number),
        ("counts", []) => counts(alloc, table),
        _ => Err(Refusal::NoCall),
    }
}

fn layout(alloc: Global, layout: Option<Layout>) -> Result<Answer, Refusal> {
    let Some(layout) = layout else {
        return Ok(Answer::Said("none"));
    };
    Ok(Answer::Shown(format!(in alloc;
        "size {}, align {}, leaves {}",
        layout.size, layout.align, layout.leaves
    )?))
}

fn offset(table: &TypeTable, ty: u64, field: u64) -> Result<Answer, Refusal> {
    let ty = type_id(table, ty)?;
    match u32::try_from(field) {
        Ok(field) => Ok(found("byte", table.offset(ty, field))),
        Err(_) => Err(Refusal::NoCall),
    }
}

fn have_one_shape(
    table: &TypeTable,
    ty: u64,
    other_table: &TypeTable,
    other: u64,
) -> Result<Answer, Refusal> {
    let ty = type_id(table, ty)?;
    let other = type_id(other_table, other)?;
    Ok(is(table.shape_eq(ty, other_table, other)))
}

fn are_equal(table: &TypeTable, ty: u64, other: u64) -> Result<Answer, Refusal> {
    let ty = type_id(table, ty)?;
    let other = type_id(table, other)?;
    Ok(is(table.get(ty) == table.get(other)))
}

// The struct that the name of the struct finds.
fn refind(table: &TypeTable, number: u64) -> Result<Answer, Refusal> {
    let name = table.struct_name(struct_id(table, number)?);
    let id = table.struct_of(name);
    Ok(found("struct", id.map(|id| u64::from(id.number()))))
}

fn is_name_of(table: &TypeTable, ty: u64, number: u64) -> Result<Answer, Refusal> {
    let ty = type_id(table, ty)?;
    match table.get(ty) {
        IrType::Named(id) => Ok(is(u64::from(id.number()) == number)),
        _ => Ok(is(false)),
    }
}

// How many types there are, how many of them are distinct, and how many structs.
fn counts(alloc: Global, table: &TypeTable) -> Result<Answer, Refusal> {
    let mut distinct: IndexMap<IrType, u64> = IndexMap::new(alloc);
    for number in 0..table.type_count() {
        let ty = table.get(TypeId::new(number)).copy(alloc)?;
        distinct.insert(ty, number)?;
    }
    let (types, structs) = (table.type_count(), table.struct_count());
    Ok(Answer::Shown(format!(in alloc;
        "{types} types, {} distinct, {structs} structs",
        distinct.len()
    )?))
}
