//! What has stood in a text so far: names, and the three texts, with their places.
ghost use Rattle.std.specs.Prelude.{◌≡◌, OnOk, List, Some, None, [], ◌∷◌, ◌++◌};
ghost use Rattle.ir_terminals.specs.declared.values.PlacedName.{PlacedName};
ghost use Rattle.name_rules.specs.Demand.{is_first, is_new};
ghost use Rattle.type_judge.specs.Judging.{IsJudged};
ghost use Rattle.name_judge.specs.Seen.{AreFirst, IsSeen};

use ir_base::Place;
use ir_terminals::PlacedName;
use name_rules::ResolveFault;
use std::alloc::Global;
use type_table::names::NameTable;

/// What has stood in a text so far.
#[derive(Drop)]
pub(crate) struct Seen<'a> {
    pub(crate) source: Option<Place>,
    pub(crate) layout: Option<Place>,
    pub(crate) triple: Option<Place>,
    pub(crate) structs: NameTable<'a, Place>,
}

/// Nothing has stood there.
pub(crate) fn nothing_seen<'a>(alloc: Global) -> Seen<'a>
    ensures { IsSeen result [] }
{
    Seen {
        source: None,
        layout: None,
        triple: None,
        structs: NameTable::new(alloc),
    }
}

/// Keeps the place; where such a text stood before, that is told.
pub(crate) fn check_first(seen: &mut Option<Place>, place: Place) -> Result<(), ResolveFault>
    ensures judged { IsJudged (is_first place seen.old) result }
    ensures seen { OnOk result (seen.old ≡ None) }
    ensures new { OnOk result (seen.new ≡ Some place) }
{
    if let Some(first) = *seen {
        return Err(ResolveFault::Duplicate { place, first });
    }
    *seen = Some(place);
    Ok(())
}

/// Keeps the name with its place; where it stood before, that is told.
pub(crate) fn check_new<'a>(
    seen: &mut NameTable<'a, Place>,
    name: &'a PlacedName,
) -> Result<(), ResolveFault>
    ensures judged { (before : List PlacedName) → AreFirst seen.old before → IsJudged (is_new before name.now) result }
    ensures seen { (before : List PlacedName) → AreFirst seen.old before → OnOk result (AreFirst seen.new (before ++ name.now ∷ [])) }
{
    match seen.get(name.name.bytes()) {
        Some(earlier) => Err(ResolveFault::Duplicate {
            place: name.place,
            first: earlier,
        }),
        None => {
            seen.put(name.name.bytes(), name.place)?;
            Ok(())
        }
    }
}
