//! Steps one after another.
ghost use Rattle.std.specs.Prelude.{◌≡◌, ◌<◌, ◌≤◌};
ghost use Rattle.run_rules.specs.Machine.{Machine};
ghost use Rattle.run_rules.specs.Clauses.{outside, StepAnswers};
ghost use Rattle.run_rules.specs.RunClauses.{RunAnswers};
ghost use Rattle.run_actions.specs.Loops.Halts.{Finishes};
ghost use Rattle.run_actions.specs.Loops.Stretches.{Stretches};
ghost use Rattle.run_actions.specs.declared.loops.stepping.TheConstants.{STEP_LIMIT};

use ir_base::{Sink, Source};
use run_rules::{End, RunFault};

/// How many steps a run has at most. A bound that `lli` is given is at most the LARGEST_NUMBER of `command_line`, on which this crate
/// does not stand: `tool_cli` is proved only where that is no more than this.
pub const STEP_LIMIT: u64 = 4_294_967_296;

/// What makes steps, and has not answered an end or a fault yet.
pub trait Stepping {
    /// The machine that it is, as its callers see it.
    ghost machine: { Self → Machine };

    /// How many steps were made so far.
    fn steps(&self) -> u64
        ensures { result ≡ (machine self.now).steps };

    /// One step: None where the run goes on, or its end. It is refused where a read or a write failed, or memory was wanted.
    fn step<I: Source, O: Sink>(
        &mut self,
        input: &mut I,
        output: &mut O,
    ) -> Result<Option<End>, RunFault>
        requires { (machine self.old).steps < STEP_LIMIT }
        ensures { StepAnswers result (machine self.old) (machine self.new) (outside (I.left input.old) (I.faults input.old) (O.taken output.old) (O.faults output.old)) (outside (I.left input.new) (I.faults input.new) (O.taken output.new) (O.faults output.new)) };

    /// Some steps in one go, or none, up to the bound, each of which goes on, reads nothing and puts nothing out; then nothing, or one step
    /// more that ends the run or meets a fault, as `step` does: None where the run goes on, or its end.
    fn go_on<I: Source, O: Sink>(
        &mut self,
        bound: u64,
        input: &I,
        output: &mut O,
    ) -> Result<Option<End>, RunFault>
        requires few { (machine self.old).steps < bound }
        requires bound { bound ≤ STEP_LIMIT }
        ensures { Stretches bound result (machine self.old) (machine self.new) (outside (I.left input.now) (I.faults input.now) (O.taken output.old) (O.faults output.old)) (outside (I.left input.now) (I.faults input.now) (O.taken output.new) (O.faults output.new)) };

    /// No step is left: what is due is entered, and the end is that, or that steps are used up. Nothing is read.
    fn halt<I: Source, O: Sink>(&mut self, input: &I, output: &mut O) -> Result<End, RunFault>
        ensures { Finishes result (machine self.old) (machine self.new) (outside (I.left input.now) (I.faults input.now) (O.taken output.old) (O.faults output.old)) (outside (I.left input.now) (I.faults input.now) (O.taken output.new) (O.faults output.new)) };
}

/// Makes steps to an end or a fault, or until their count is the bound, which is at most STEP_LIMIT; then the end is the one that
/// `halt` gives.
#[inline(never)]
pub fn run<M: Stepping, I: Source, O: Sink>(
    machine: &mut M,
    bound: u64,
    input: &mut I,
    output: &mut O,
) -> Result<End, RunFault>
    requires { bound ≤ STEP_LIMIT }
    ensures { RunAnswers bound result (M.machine machine.old) (M.machine machine.new) (outside (I.left input.old) (I.faults input.old) (O.taken output.old) (O.faults output.old)) (outside (I.left input.new) (I.faults input.new) (O.taken output.new) (O.faults output.new)) }
{
    'running: while machine.steps() < bound {
        match machine.go_on(bound, input, output) {
            Ok(None) => {}
            Ok(Some(end)) => return Ok(end),
            Err(fault) => return Err(fault),
        }
        if machine.steps() < bound {
            match machine.step(input, output) {
                Ok(None) => {}
                Ok(Some(end)) => return Ok(end),
                Err(fault) => return Err(fault),
            }
        }
    }
    machine.halt(input, output)
}
