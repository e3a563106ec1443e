//! Judges the declarations and the definitions of functions.
#![tactic(auto, using(type_judge::proofs::Parts::judged_front, type_judge::proofs::Parts::judged_rest, type_judge::proofs::Parts::judged_stop, type_judge::proofs::Parts::judged_next))]

ghost use Rattle.std.specs.Prelude.{◌≡◌, List, ◌++◌, map, flat_map};
ghost use Rattle.ir_phrases.specs.Instructions.View.{block_view};
ghost use Rattle.ir_syntax.specs.Functions.{parameter_types};
ghost use Rattle.ir_syntax.specs.View.{head_view, parameter_view};
ghost use Rattle.ir_terminals.specs.declared.values.PlacedName.{PlacedName};
ghost use Rattle.name_rules.specs.Breaks.{head_demands};
ghost use Rattle.name_rules.specs.Demand.{place_of_name};
ghost use Rattle.name_rules.specs.FunctionDemands.{definition_demands};
ghost use Rattle.name_rules.specs.TypeDemands.{type_demands};
ghost use Rattle.type_judge.specs.Gathered.{IsKnown, known_of};
ghost use Rattle.type_judge.specs.Judging.{IsJudged};

use crate::earlier::check_apart;
use crate::locals::{LocalTables, check_definition};
use ir_base::Place;
use ir_syntax::{Declaration, Definition, FunctionHead, WrittenParameter};
use name_rules::ResolveFault;
use std::alloc::Global;
use type_judge::{Known, check_type};

/// The type that a function returns, and its name, which stood first at that place.
fn check_head(
    alloc: Global,
    known: &Known,
    earlier: Option<Place>,
    head: &FunctionHead,
) -> Result<(), ResolveFault>
    requires known { IsKnown known.now }
    ensures { (before : List PlacedName) → earlier ≡ place_of_name before head.now.name.name → IsJudged (head_demands (known_of known.now) before (head_view head.now)) result }
{
    check_type(alloc, known, &head.returns)?;
    check_apart(earlier, head.name.place)
}

/// The types of parameters.
fn check_parameter_types(
    alloc: Global,
    known: &Known,
    parameters: &[WrittenParameter],
) -> Result<(), ResolveFault>
    requires known { IsKnown known.now }
    ensures { IsJudged (flat_map (type_demands (known_of known.now)) (parameter_types (map parameter_view parameters.now))) result }
{
    'parameters: for parameter in parameters {
        check_type(alloc, known, &parameter.ty)?;
    }
    Ok(())
}

/// A declaration, whose name stood first at that place.
pub(crate) fn check_declaration(
    alloc: Global,
    known: &Known,
    earlier: Option<Place>,
    declaration: &Declaration,
) -> Result<(), ResolveFault>
    requires known { IsKnown known.now }
    ensures { (before : List PlacedName) → earlier ≡ place_of_name before declaration.now.head.name.name
        → IsJudged (head_demands (known_of known.now) before (head_view declaration.now.head) ++ flat_map (type_demands (known_of known.now)) (parameter_types (map parameter_view declaration.now.formal.parameters.items))) result }
{
    check_head(alloc, known, earlier, &declaration.head)?;
    check_parameter_types(alloc, known, &declaration.formal.parameters)
}

/// A definition, whose name stood first at that place. The tables of locals may be those of any function before.
pub(crate) fn check_function<'a>(
    alloc: Global,
    known: &Known,
    earlier: Option<Place>,
    tables: &mut LocalTables<'a>,
    definition: &'a Definition,
) -> Result<(), ResolveFault>
    requires known { IsKnown known.now }
    ensures { (before : List PlacedName) → earlier ≡ place_of_name before definition.now.head.name.name
        → IsJudged (head_demands (known_of known.now) before (head_view definition.now.head) ++ definition_demands (known_of known.now) (map parameter_view definition.now.parameters.items) (map block_view definition.now.blocks.items)) result }
{
    check_head(alloc, known, earlier, &definition.head)?;
    check_definition(
        alloc,
        known,
        tables,
        &definition.parameters,
        &definition.blocks,
    )
}
