//! Judges how blocks end (LangRef, "Terminator Instructions").
#![tactic(auto, using(crate::proofs::OnLocals::Steps::judged_front, crate::proofs::OnLocals::Steps::judged_rest, crate::proofs::OnLocals::Steps::judged_stop, crate::proofs::OnLocals::Steps::judged_next))]

ghost use Rattle.std.specs.Prelude.{◌≡◌, [], ◌∷◌, ◌++◌, map, flat_map, true};
ghost use Rattle.ir_phrases.specs.Constants.View.{typed_value_view};
ghost use Rattle.ir_phrases.specs.Instructions.View.{case_view, ending_view};
ghost use Rattle.name_rules.specs.Demand.{is_local};
ghost use Rattle.name_rules.specs.FunctionDemands.{operand_demands, case_demands, ending_demands};
ghost use Rattle.type_judge.specs.Gathered.{IsKnown, known_of};
ghost use Rattle.type_judge.specs.Judging.{IsJudged};
ghost use Rattle.name_judge.specs.Locals.Names.{AreGathered, locals_of};

use crate::locals::gathered::FunctionLocals;
use crate::locals::operands::{check_local, check_operand};
use crate::locals::passing::ending_passes;
use ir_phrases::instructions::{Branch, Switch, WrittenCase, WrittenEnding};
use name_rules::ResolveFault;
use std::alloc::Global;
use type_judge::{Known, check_constant, check_type};

/// A case of a switch: its constant, and the block that it goes to.
fn check_case(
    alloc: Global,
    known: &Known,
    locals: &FunctionLocals,
    case: &WrittenCase,
) -> Result<(), ResolveFault>
    requires known { IsKnown known.now }
    requires locals { AreGathered locals.now }
    ensures { IsJudged (case_demands (known_of known.now) (locals_of locals.now) (case_view case.now)) result }
{
    check_type(alloc, known, &case.value.ty)?;
    check_constant(alloc, known, &case.value.value, &case.value.ty)?;
    check_local(alloc, locals, true, &case.target)
}

/// The cases of a switch, each of them.
fn check_cases(
    alloc: Global,
    known: &Known,
    locals: &FunctionLocals,
    cases: &[WrittenCase],
) -> Result<(), ResolveFault>
    requires known { IsKnown known.now }
    requires locals { AreGathered locals.now }
    ensures { IsJudged (flat_map (case_demands (known_of known.now) (locals_of locals.now)) (map case_view cases.now)) result }
{
    'cases: for case in cases {
        check_case(alloc, known, locals, case)?;
    }
    Ok(())
}

/// A branch on a condition.
fn check_branch(
    alloc: Global,
    known: &Known,
    locals: &FunctionLocals,
    branch: &Branch,
) -> Result<(), ResolveFault>
    requires known { IsKnown known.now }
    requires locals { AreGathered locals.now }
    ensures { IsJudged (operand_demands (known_of known.now) (locals_of locals.now) (typed_value_view branch.now.condition) ++ is_local (locals_of locals.now) true branch.now.then_to ∷ is_local (locals_of locals.now) true branch.now.else_to ∷ []) result }
{
    check_operand(alloc, known, locals, &branch.condition)?;
    check_local(alloc, locals, true, &branch.then_to)?;
    check_local(alloc, locals, true, &branch.else_to)
}

/// A switch.
fn check_switch(
    alloc: Global,
    known: &Known,
    locals: &FunctionLocals,
    switch: &Switch,
) -> Result<(), ResolveFault>
    requires known { IsKnown known.now }
    requires locals { AreGathered locals.now }
    ensures { IsJudged (operand_demands (known_of known.now) (locals_of locals.now) (typed_value_view switch.now.value) ++ is_local (locals_of locals.now) true switch.now.otherwise ∷ flat_map (case_demands (known_of known.now) (locals_of locals.now)) (map case_view switch.now.cases.items)) result }
{
    check_operand(alloc, known, locals, &switch.value)?;
    check_local(alloc, locals, true, &switch.otherwise)?;
    check_cases(alloc, known, locals, &switch.cases)
}

/// The end of a block.
#[inline(never)]
fn check_whole_ending(
    alloc: Global,
    known: &Known,
    locals: &FunctionLocals,
    ending: &WrittenEnding,
) -> Result<(), ResolveFault>
    requires known { IsKnown known.now }
    requires locals { AreGathered locals.now }
    ensures { IsJudged (ending_demands (known_of known.now) (locals_of locals.now) (ending_view ending.now)) result }
{
    match ending {
        WrittenEnding::ReturnVoid | WrittenEnding::Unreachable => Ok(()),
        WrittenEnding::Return(value) => check_operand(alloc, known, locals, value),
        WrittenEnding::Jump(target) => check_local(alloc, locals, true, target),
        WrittenEnding::Branch(branch) => check_branch(alloc, known, locals, branch),
        WrittenEnding::Switch(switch) => check_switch(alloc, known, locals, switch),
    }
}

/// The end of a block. A look tells of most that all holds.
#[inline(always)]
pub(crate) fn check_ending(
    alloc: Global,
    known: &Known,
    locals: &FunctionLocals,
    ending: &WrittenEnding,
) -> Result<(), ResolveFault>
    requires known { IsKnown known.now }
    requires locals { AreGathered locals.now }
    ensures { IsJudged (ending_demands (known_of known.now) (locals_of locals.now) (ending_view ending.now)) result }
{
    if ending_passes(known, locals, ending) {
        return Ok(());
    }
    check_whole_ending(alloc, known, locals, ending)
}
