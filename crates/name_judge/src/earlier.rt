//! Which variable, alias or function before an item has its name.
#![tactic(auto)]

ghost use Rattle.std.specs.Prelude.{◌≡◌, IfOk, OnOk, List, true, false, [], ◌∷◌, ◌++◌, bytes_eq, filter_map};
ghost use Rattle.ir_tables.specs.Table.{is_distinct};
ghost use Rattle.ir_syntax.specs.Tree.{ItemTree};
ghost use Rattle.ir_syntax.specs.View.{item_view};
ghost use Rattle.ir_terminals.specs.declared.values.PlacedName.{PlacedName};
ghost use Rattle.name_rules.specs.Breaks.{global_name, global_names};
ghost use Rattle.name_rules.specs.Demand.{is_first, place_of_name};
ghost use Rattle.type_judge.specs.Judging.{IsJudged};
ghost use Rattle.name_judge.specs.Seen.{AreFirst, AreKept, earlier_of};

use ir_base::Place;
use ir_syntax::Item;
use ir_terminals::PlacedName;
use name_rules::ResolveFault;
use std::alloc::AllocError;
use type_judge::global_name;
use type_table::names::NameTable;

/// The place of the first that is called so, where there is one; else the name is kept with its place.
fn first_or_kept<'a>(
    seen: &mut NameTable<'a, Place>,
    name: &'a PlacedName,
) -> Result<Option<Place>, AllocError>
    ensures earlier { (before : List PlacedName) → AreFirst seen.old before → IfOk result (λ earlier. earlier ≡ place_of_name before name.now.name) }
    ensures kept { (before : List PlacedName) → AreFirst seen.old before → OnOk result (AreFirst seen.new (before ++ name.now ∷ [])) }
{
    match seen.get(name.name.bytes()) {
        Some(earlier) => Ok(Some(earlier)),
        None => {
            seen.put(name.name.bytes(), name.place)?;
            Ok(None)
        }
    }
}

/// The place of the first global with the name of the item, where one stood before it; else the name is kept with its place.
fn first_of_item<'a>(
    seen: &mut NameTable<'a, Place>,
    item: &'a Item,
) -> Result<Option<Place>, AllocError>
    ensures earlier { (before : List ItemTree) → AreFirst seen.old (filter_map global_name before) → IfOk result (λ earlier. earlier ≡ earlier_of before (item_view item.now)) }
    ensures kept { (before : List ItemTree) → AreFirst seen.old (filter_map global_name before) → OnOk result (AreFirst seen.new (filter_map global_name (before ++ item_view item.now ∷ []))) }
{
    match global_name(item) {
        None => Ok(None),
        Some(name) => first_or_kept(seen, name),
    }
}

/// The place of the first global with the name of the item, where one stood before it. Where no two globals of the text have
/// the same name there is none, and it does not matter what the table has.
pub(crate) fn earlier_global<'a>(
    distinct: bool,
    seen: &mut NameTable<'a, Place>,
    item: &'a Item,
) -> Result<Option<Place>, AllocError>
    ensures earlier { (before rest : List ItemTree) → AreKept distinct seen.old before → (distinct ≡ true → is_distinct bytes_eq (global_names (before ++ item_view item.now ∷ rest)) ≡ true) → IfOk result (λ earlier. earlier ≡ earlier_of before (item_view item.now)) }
    ensures kept { (before : List ItemTree) → AreKept distinct seen.old before → OnOk result (AreKept distinct seen.new (before ++ item_view item.now ∷ [])) }
{
    if distinct {
        return Ok(None);
    }
    first_of_item(seen, item)
}

/// None stood before with the name that stands there.
pub(crate) fn check_apart(earlier: Option<Place>, place: Place) -> Result<(), ResolveFault>
    ensures { IsJudged (is_first place earlier) result }
{
    match earlier {
        Some(first) => Err(ResolveFault::Duplicate { place, first }),
        None => Ok(()),
    }
}
