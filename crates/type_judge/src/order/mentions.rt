//! Gathers the structs of a text: their numbers by their names, and what each mentions.
ghost use Rattle.std.specs.Prelude.{◌≡◌, ◌<◌, ◌^◌, ℕ, List, [], ◌∷◌, ◌++◌, ◌+◌, map, length, IfOk, OnOk, bytes_eq, cond, Some, None};
ghost use Rattle.type_table.specs.Names.Entries.{value_of};
ghost use Rattle.type_table.specs.Tree.{Structs};
ghost use Rattle.ir_phrases.specs.Constants.Tree.{types};
ghost use Rattle.ir_phrases.specs.Constants.View.{type_view};
ghost use Rattle.ir_syntax.specs.View.{body_view, item_view, items_view};
ghost use Rattle.name_rules.specs.Measured.{names_in, all_names_in, body_names};
ghost use Rattle.name_rules.specs.ModuleOf.{structs_in};
ghost use Rattle.name_rules.specs.Written.{type_in, types_in, body_in};
ghost use Rattle.type_judge.specs.Order.Mentions.{AreNumbers, numbers_of, mentions_of, lists_from, first_number};
ghost use Rattle.type_judge.specs.Order.Order.{mention_lists};

use ir_phrases::constants::Type;
use ir_syntax::{Item, Items, WrittenBody};
use ir_terminals::PlacedName;
use std::alloc::{AllocError, Global};
use type_table::names::NameTable;

/// The number of each struct, counted from 0 in the order of the text; of structs of one name, that of the first.
pub fn struct_numbers<'a>(alloc: Global, items: &'a Items) -> Result<NameTable<'a, u32>, AllocError>
    requires { length (structs_in (items_view items.now)) < 2 ^ 32 }
    ensures { IfOk result (λ numbers. AreNumbers numbers (structs_in (items_view items.now))) }
{
    let mut numbers = NameTable::new(alloc);
    let mut count = 0;
    'items: for item in items.as_slice() {
        count = number_item(&mut numbers, count, item)?;
    }
    Ok(numbers)
}

/// Gives the item the number where it is a struct, and tells the next number.
fn number_item<'a>(
    numbers: &mut NameTable<'a, u32>,
    count: u32,
    item: &'a Item,
) -> Result<u32, AllocError>
    requires { count + length (structs_in (item_view item.now ∷ [])) < 2 ^ 32 }
    ensures numbers { (structs : Structs) → count ≡ length structs → AreNumbers numbers.old structs → OnOk result (AreNumbers numbers.new (structs ++ structs_in (item_view item.now ∷ []))) }
    ensures next { IfOk result (λ next. next ≡ count + length (structs_in (item_view item.now ∷ []))) }
{
    match item {
        Item::Struct { name, .. } => {
            add_number(numbers, name, count)?;
            Ok(count + 1)
        }
        _ => Ok(count),
    }
}

/// Gives the name that number, unless it has one.
fn add_number<'a>(
    numbers: &mut NameTable<'a, u32>,
    name: &'a PlacedName,
    number: u32,
) -> Result<(), AllocError>
    ensures { OnOk result ((other : List ℕ) → value_of numbers.new other ≡ first_number (value_of numbers.old other) (cond (bytes_eq name.now.name other) (Some number) None)) }
{
    if numbers.get(name.name.bytes()).is_none() {
        numbers.put(name.name.bytes(), number)?;
    }
    Ok(())
}

/// Adds the numbers of the structs that the type names.
#[cycle(mentions)]
fn add_type(numbers: &NameTable<u32>, ty: &Type, found: &mut Vec<u32>) -> Result<(), AllocError>
    ensures { OnOk result (found.new.items ≡ found.old.items ++ numbers_of numbers.now (names_in (type_in (type_view ty.now)))) }
{
    match ty {
        Type::Integer(_, _) | Type::Ptr(_) | Type::Void(_) => Ok(()),
        Type::Array(_, array) => add_type(numbers, &array.element, found),
        Type::Struct(_, _, fields) => add_types(numbers, fields, found),
        Type::Named(name) => {
            if let Some(number) = numbers.get(name.name.bytes()) {
                found.push(number)?;
            }
            Ok(())
        }
    }
}

/// Adds the numbers of the structs that the types name.
#[cycle(mentions)]
fn add_types(
    numbers: &NameTable<u32>,
    fields: &[Type],
    found: &mut Vec<u32>,
) -> Result<(), AllocError>
    ensures { OnOk result (found.new.items ≡ found.old.items ++ numbers_of numbers.now (all_names_in (types_in (types (map type_view fields.now))))) }
{
    'fields: for field in fields {
        add_type(numbers, field, found)?;
    }
    Ok(())
}

/// The numbers of the structs that the body names.
fn body_mentions(
    alloc: Global,
    numbers: &NameTable<u32>,
    body: &WrittenBody,
) -> Result<Vec<u32>, AllocError>
    ensures { IfOk result (λ found. found.items ≡ numbers_of numbers.now (body_names (body_in (body_view body.now)))) }
{
    let mut found = Vec::new(alloc);
    match body {
        WrittenBody::Opaque => {}
        WrittenBody::Plain(fields) | WrittenBody::Packed(fields) => {
            add_types(numbers, fields, &mut found)?;
        }
    }
    Ok(found)
}

/// What the struct mentions: itself, where it is not the first with its name.
fn struct_mentions(
    alloc: Global,
    numbers: &NameTable<u32>,
    number: u32,
    name: &PlacedName,
    body: &WrittenBody,
) -> Result<Vec<u32>, AllocError>
    ensures { IfOk result (λ found. found.items ≡ mentions_of numbers.now number (name.now.name, body_in (body_view body.now))) }
{
    if numbers.get(name.name.bytes()) == Some(number) {
        return body_mentions(alloc, numbers, body);
    }
    let mut itself = Vec::new(alloc);
    itself.push(number)?;
    Ok(itself)
}

/// What each struct mentions, in the order of the text.
pub fn all_mentions(
    alloc: Global,
    numbers: &NameTable<u32>,
    items: &Items,
) -> Result<Vec<Vec<u32>>, AllocError>
    requires { length (structs_in (items_view items.now)) < 2 ^ 32 }
    ensures { IfOk result (λ all. mention_lists all.items ≡ lists_from numbers.now 0 (structs_in (items_view items.now))) }
{
    let mut all = Vec::new(alloc);
    'items: for item in items.as_slice() {
        add_mentions(alloc, numbers, item, &mut all)?;
    }
    Ok(all)
}

/// Adds what the item mentions, where it is a struct.
fn add_mentions(
    alloc: Global,
    numbers: &NameTable<u32>,
    item: &Item,
    all: &mut Vec<Vec<u32>>,
) -> Result<(), AllocError>
    requires { length all.old.items < 2 ^ 32 }
    ensures { OnOk result (mention_lists all.new.items ≡ mention_lists all.old.items ++ lists_from numbers.now (length all.old.items) (structs_in (item_view item.now ∷ []))) }
{
    match item {
        Item::Struct { name, body } => {
            let found = struct_mentions(alloc, numbers, all.len() as u32, name, body)?;
            all.push(found)?;
            Ok(())
        }
        _ => Ok(()),
    }
}
