//! Gives the structs of a text their bodies along an order.
ghost use Rattle.std.specs.Prelude.{◌≡◌, ◌++◌, ◌<◌, IfOk, OnOk, Some, length, map, option_to_list, slice_get};
ghost use Rattle.ir_syntax.specs.View.{item_view, items_view};
ghost use Rattle.type_table.specs.Types.{structs};
ghost use Rattle.module_arena.specs.View.{module_of};
ghost use Rattle.name_rules.specs.ModuleOf.{struct_in, structs_in};
ghost use Rattle.item_build.specs.Types.Holding.{entries};
ghost use Rattle.item_build.specs.Buildable.Laws.{AreBuildable};
ghost use Rattle.item_build.specs.Partly.{IsPartly, AllFit, with_structs};
ghost use Rattle.item_build.specs.Places.{ArePlaces};

use crate::building::define_item;
use crate::types::Builder;
use ir_syntax::Item;
use std::alloc::{AllocError, Global};

/// Adds the place of the item, where that is a struct.
fn add_place(places: &mut Vec<usize>, place: usize, item: &Item) -> Result<(), AllocError>
    ensures { OnOk result (places.new.items ≡ places.old.items ++ map (λ s. place) (option_to_list (struct_in (item_view item.now)))) }
{
    match item {
        Item::Struct { .. } => {
            places.push(place)?;
            Ok(())
        }
        _ => Ok(()),
    }
}

/// The places of the structs among the items, in order.
fn struct_places(alloc: Global, items: &[Item]) -> Result<Vec<usize>, AllocError>
    ensures { IfOk result (λ places. ArePlaces items.now places.items) }
{
    let mut places = Vec::new(alloc);
    'items: for place in 0..items.len() {
        let item = &items[place];
        add_place(&mut places, place, item)?;
    }
    Ok(places)
}

/// The place with that number, if there is one.
fn place_at(places: &[usize], number: u32) -> Option<usize>
    ensures { result ≡ slice_get places.now number }
{
    let index = number as usize;
    if index < places.len() {
        Some(places[index])
    } else {
        None
    }
}

/// The item at that place.
fn item_at(items: &[Item], place: usize) -> &Item
    requires { place < length items.now }
    ensures { slice_get items.now place ≡ Some result.now }
{
    &items[place]
}

/// Gives the struct with that number its body, if there is one.
fn define_numbered(
    builder: &mut Builder,
    alloc: Global,
    items: &[Item],
    places: &[usize],
    number: u32,
) -> Result<(), AllocError>
    requires buildable { AreBuildable (items_view items.now) }
    requires places { ArePlaces items.now places.now }
    requires fit { AllFit (structs_in (items_view items.now)) }
    requires partly { IsPartly (structs_in (items_view items.now)) builder.old.arena }
    ensures module { OnOk result (module_of builder.new.arena ≡ with_structs (module_of builder.old.arena) (structs builder.new.arena.table)) }
    ensures entries { OnOk result (entries builder.new.arena ≡ entries builder.old.arena) }
    ensures partly { OnOk result (IsPartly (structs_in (items_view items.now)) builder.new.arena) }
{
    match place_at(places, number) {
        Some(place) => {
            let item = item_at(items, place);
            define_item(builder, alloc, number, item)?;
            Ok(())
        }
        None => Ok(()),
    }
}

/// Gives structs their bodies in the order of these numbers. Where each stands behind those that it holds, no type is measured twice.
pub(crate) fn define_along(
    builder: &mut Builder,
    alloc: Global,
    items: &[Item],
    order: &[u32],
) -> Result<(), AllocError>
    requires buildable { AreBuildable (items_view items.now) }
    requires fit { AllFit (structs_in (items_view items.now)) }
    requires partly { IsPartly (structs_in (items_view items.now)) builder.old.arena }
    ensures module { OnOk result (module_of builder.new.arena ≡ with_structs (module_of builder.old.arena) (structs builder.new.arena.table)) }
    ensures entries { OnOk result (entries builder.new.arena ≡ entries builder.old.arena) }
    ensures partly { OnOk result (IsPartly (structs_in (items_view items.now)) builder.new.arena) }
{
    let listed = struct_places(alloc, items)?;
    let places = listed.as_slice();
    'order: for number in order {
        define_numbered(builder, alloc, items, places, *number)?;
    }
    Ok(())
}
