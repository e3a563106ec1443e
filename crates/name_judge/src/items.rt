//! Judges the items of a text, in the order of the text.
ghost use Rattle.std.specs.Prelude.{◌≡◌, ◌<◌, ◌^◌, OnOk, List, [], ◌∷◌, ◌++◌, length};
ghost use Rattle.ir_syntax.specs.Tree.{ItemTree};
ghost use Rattle.ir_syntax.specs.View.{item_view, items_view};
ghost use Rattle.name_rules.specs.Breaks.{item_demands, demands, demands_behind, known_in};
ghost use Rattle.name_rules.specs.ModuleOf.{structs_in};
ghost use Rattle.type_judge.specs.Gathered.{IsKnown, known_of};
ghost use Rattle.type_judge.specs.Judging.{IsJudged};
ghost use Rattle.type_judge.specs.Ends.Mentioning.{AreMentions, structs_of};
ghost use Rattle.name_judge.specs.Seen.{IsSeen, earlier_of};

use crate::earlier::earlier_global;
use crate::functions::{check_declaration, check_function};
use crate::globals::{check_alias, check_variable};
use crate::locals::LocalTables;
use crate::seen::{Seen, check_first, nothing_seen};
use crate::structs::check_struct;
use ir_base::Place;
use ir_syntax::{Item, Items};
use name_rules::ResolveFault;
use std::alloc::Global;
use type_judge::Known;
use type_judge::ends::StructMentions;
use type_table::names::NameTable;

/// An item, behind what has stood in the text so far, where the first global of its name stood at that place. The tables of
/// locals may be those of any function before.
fn check_item<'a>(
    alloc: Global,
    known: &Known,
    mentions: &StructMentions,
    seen: &mut Seen<'a>,
    tables: &mut LocalTables<'a>,
    earlier: Option<Place>,
    item: &'a Item,
) -> Result<(), ResolveFault>
    requires known { IsKnown known.now }
    requires mentions { AreMentions mentions.now }
    requires structs { structs_of mentions.now ≡ (known_of known.now).structs }
    ensures judged { (before : List ItemTree) → IsSeen seen.old before → earlier ≡ earlier_of before (item_view item.now) → IsJudged (item_demands (known_of known.now) before (item_view item.now)) result }
    ensures seen { (before : List ItemTree) → IsSeen seen.old before → OnOk result (IsSeen seen.new (before ++ item_view item.now ∷ [])) }
{
    match item {
        Item::SourceFilename { place, .. } => check_first(&mut seen.source, *place),
        Item::DataLayout { place, .. } => check_first(&mut seen.layout, *place),
        Item::TargetTriple { place, .. } => check_first(&mut seen.triple, *place),
        Item::Struct { name, body } => {
            check_struct(alloc, known, mentions, &mut seen.structs, name, body)
        }
        Item::Variable(variable) => check_variable(alloc, known, earlier, variable),
        Item::Alias(alias) => check_alias(alloc, known, earlier, alias),
        Item::Declaration { declaration, .. } => {
            check_declaration(alloc, known, earlier, declaration)
        }
        Item::Definition { definition, .. } => {
            check_function(alloc, known, earlier, tables, definition)
        }
        Item::Attributes(_) => Ok(()),
        Item::Metadata(_) => Ok(()),
    }
}

/// The items of a text, each behind those before it, from tables that are empty. The tables of
/// locals may be those of any function. All are borrowed, so that no exit of the loop drops them.
fn check_each<'a>(
    alloc: Global,
    known: &Known,
    mentions: &StructMentions,
    seen: &mut Seen<'a>,
    globals: &mut NameTable<'a, Place>,
    tables: &mut LocalTables<'a>,
    items: &'a [Item],
) -> Result<(), ResolveFault>
    requires known { IsKnown known.now }
    requires mentions { AreMentions mentions.now }
    requires structs { structs_of mentions.now ≡ (known_of known.now).structs }
    requires items { known_of known.now ≡ known_in (items_view items.now) }
    requires seen { IsSeen seen.old [] }
    requires globals { globals.old ≡ [] }
    ensures { IsJudged (demands_behind (known_of known.now) [] (items_view items.now)) result }
{
    let distinct = known.are_distinct();
    'items: for item in items {
        let earlier = earlier_global(distinct, globals, item)?;
        check_item(alloc, known, mentions, seen, tables, earlier, item)?;
    }
    Ok(())
}

/// The items of a text, where what they define is gathered.
fn check_gathered(
    alloc: Global,
    known: &Known,
    mentions: &StructMentions,
    items: &[Item],
) -> Result<(), ResolveFault>
    requires known { IsKnown known.now }
    requires mentions { AreMentions mentions.now }
    requires structs { structs_of mentions.now ≡ (known_of known.now).structs }
    requires items { known_of known.now ≡ known_in (items_view items.now) }
    ensures { IsJudged (demands_behind (known_of known.now) [] (items_view items.now)) result }
{
    let mut seen = nothing_seen(alloc);
    let mut globals = NameTable::new(alloc);
    let mut tables = LocalTables::new(alloc);
    check_each(
        alloc,
        known,
        mentions,
        &mut seen,
        &mut globals,
        &mut tables,
        items,
    )
}

/// The items of a text, each behind those before it.
pub(crate) fn check_items(alloc: Global, items: &Items) -> Result<(), ResolveFault>
    requires few { length (structs_in (items_view items.now)) < 2 ^ 32 }
    ensures { IsJudged (demands (items_view items.now)) result }
{
    let known = Known::of_items(alloc, items)?;
    let mentions = StructMentions::of_items(alloc, items)?;
    check_gathered(alloc, &known, &mentions, items.as_slice())
}
