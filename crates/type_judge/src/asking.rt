//! One demand, asked by a test.
#![tactic(auto, using(crate::proofs::Parts::judged_front, crate::proofs::Parts::judged_rest, crate::proofs::Parts::judged_stop, crate::proofs::Parts::judged_next))]

ghost use Rattle.std.specs.Prelude.{[], ◌∷◌};
ghost use Rattle.name_rules.specs.Demand as demand;
ghost use Rattle.type_judge.specs.Judging.{IsJudged};

use name_rules::ResolveFault;

/// Goes on where it holds, and else refuses so.
pub fn ask(holds: bool, refusal: ResolveFault) -> Result<(), ResolveFault>
    ensures { IsJudged (demand.ask holds refusal ∷ []) result }
{
    if holds { Ok(()) } else { Err(refusal) }
}
