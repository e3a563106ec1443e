//! Judges the variables and the aliases of a text.
#![tactic(auto, using(type_judge::proofs::Parts::judged_front, type_judge::proofs::Parts::judged_rest, type_judge::proofs::Parts::judged_stop, type_judge::proofs::Parts::judged_next))]

ghost use Rattle.std.specs.Prelude.{◌≡◌, List, [], ◌∷◌, ◌++◌, option_map};
ghost use Rattle.ir_phrases.specs.Constants.View.{type_view, constant_view};
ghost use Rattle.ir_syntax.specs.View.{variable_view, alias_type_view, alias_view};
ghost use Rattle.ir_terminals.specs.declared.values.PlacedName.{PlacedName};
ghost use Rattle.name_rules.specs.Breaks.{initialiser_demands, content_demands, variable_demands, alias_type_demands, alias_demands};
ghost use Rattle.name_rules.specs.Demand.{place_of_name};
ghost use Rattle.name_rules.specs.TypeDemands.{is_global};
ghost use Rattle.type_judge.specs.Gathered.{IsKnown, known_of};
ghost use Rattle.type_judge.specs.Judging.{IsJudged};

use crate::earlier::check_apart;
use ir_base::Place;
use ir_phrases::constants::{Constant, Type};
use ir_syntax::{WrittenAlias, WrittenAliasType, WrittenVariable};
use name_rules::ResolveFault;
use std::alloc::Global;
use type_judge::{Known, check_alignment, check_constant, check_global, check_type, check_types};

/// The initialiser of a variable of that type, where one is written.
fn check_initialiser(
    alloc: Global,
    known: &Known,
    ty: &Type,
    initialiser: &Option<Constant>,
) -> Result<(), ResolveFault>
    requires known { IsKnown known.now }
    ensures { IsJudged (initialiser_demands (known_of known.now) (type_view ty.now) (option_map constant_view initialiser.now)) result }
{
    match initialiser {
        None => Ok(()),
        Some(constant) => check_constant(alloc, known, constant, ty),
    }
}

/// What stands behind the name of a variable.
fn check_content(
    alloc: Global,
    known: &Known,
    variable: &WrittenVariable,
) -> Result<(), ResolveFault>
    requires known { IsKnown known.now }
    ensures { IsJudged (content_demands (known_of known.now) (variable_view variable.now)) result }
{
    check_type(alloc, known, &variable.ty)?;
    check_initialiser(alloc, known, &variable.ty, &variable.initialiser)?;
    check_alignment(&variable.alignment)
}

/// A variable, whose name stood first at that place.
pub(crate) fn check_variable(
    alloc: Global,
    known: &Known,
    earlier: Option<Place>,
    variable: &WrittenVariable,
) -> Result<(), ResolveFault>
    requires known { IsKnown known.now }
    ensures { (before : List PlacedName) → earlier ≡ place_of_name before variable.now.name.name → IsJudged (variable_demands (known_of known.now) before (variable_view variable.now)) result }
{
    check_apart(earlier, variable.name.place)?;
    check_content(alloc, known, variable)
}

/// What the type of an alias asks for.
fn check_alias_type(alloc: Global, known: &Known, ty: &WrittenAliasType) -> Result<(), ResolveFault>
    requires known { IsKnown known.now }
    ensures { IsJudged (alias_type_demands (known_of known.now) (alias_type_view ty.now)) result }
{
    match ty {
        WrittenAliasType::Plain(ty) => check_type(alloc, known, ty),
        WrittenAliasType::Function { returns, signature } => {
            check_type(alloc, known, returns)?;
            check_types(alloc, known, &signature.parameters)
        }
    }
}

/// What stands behind the name of an alias.
fn check_meaning(alloc: Global, known: &Known, alias: &WrittenAlias) -> Result<(), ResolveFault>
    requires known { IsKnown known.now }
    ensures { IsJudged (alias_type_demands (known_of known.now) (alias_type_view alias.now.ty) ++ is_global (known_of known.now) alias.now.target ∷ []) result }
{
    check_alias_type(alloc, known, &alias.ty)?;
    check_global(alloc, known, &alias.target)
}

/// An alias, whose name stood first at that place.
pub(crate) fn check_alias(
    alloc: Global,
    known: &Known,
    earlier: Option<Place>,
    alias: &WrittenAlias,
) -> Result<(), ResolveFault>
    requires known { IsKnown known.now }
    ensures { (before : List PlacedName) → earlier ≡ place_of_name before alias.now.name.name → IsJudged (alias_demands (known_of known.now) before (alias_view alias.now)) result }
{
    check_apart(earlier, alias.name.place)?;
    check_meaning(alloc, known, alias)
}
