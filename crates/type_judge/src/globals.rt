//! Judges the names of variables, aliases and functions where they are used.
#![tactic(auto, using(crate::proofs::Parts::judged_front, crate::proofs::Parts::judged_rest, crate::proofs::Parts::judged_stop, crate::proofs::Parts::judged_next))]

ghost use Rattle.std.specs.Prelude.{[], ◌∷◌};
ghost use Rattle.name_rules.specs.TypeDemands.{is_global};
ghost use Rattle.type_judge.specs.Gathered.{IsKnown, known_of};
ghost use Rattle.type_judge.specs.Judging.{IsJudged};

use crate::known::Known;
use ir_terminals::PlacedName;
use name_rules::{ResolveFault, spell_global};
use std::alloc::Global;

/// The name is that of a variable, an alias or a function; else it is told as it is spelled.
pub fn check_global(alloc: Global, known: &Known, name: &PlacedName) -> Result<(), ResolveFault>
    requires { IsKnown known.now }
    ensures { IsJudged (is_global (known_of known.now) name.now ∷ []) result }
{
    if known.has_global(name.name.bytes()) {
        return Ok(());
    }
    let spelled = spell_global(alloc, name.name.bytes())?;
    Err(ResolveFault::UnknownName {
        place: name.place,
        spelled,
    })
}
