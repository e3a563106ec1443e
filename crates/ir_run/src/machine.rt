//! The machine as its callers have it.
ghost use Rattle.std.specs.Prelude.{◌≡◌, ◌^◌, ◌<◌, ◌≤◌};
ghost use Rattle.run_actions.specs.declared.loops.stepping.TheConstants.{STEP_LIMIT};
ghost use Rattle.run_rules.specs.Clauses.{outside, Steps};
ghost use Rattle.run_rules.specs.RunClauses.{Runs};
ghost use Rattle.ir_run.specs.Seen.{machine_seen};

use crate::inside::Inside;
use ir_base::{Sink, Source};
use run_actions::loops::Stepping;
use run_actions::passing::ToldEnd;
use run_rules::{End, RunFault};
use std::marker::Model;

/// A run of a module, opened. Once a call has answered an end or a fault, every later call answers the same; below the limit of steps
/// alone may a step be asked for.
#[derive(Drop)]
pub struct Machine<'m> {
    pub(crate) inside: Inside<'m>,
    pub(crate) answer: Option<ToldEnd>,
}

impl<'m> Model for Machine<'m> {
    ghost use Rattle.std.specs.Option.{option_map};
    ghost use Rattle.run_actions.specs.Passing.Told.{told_seen};
    ghost use Rattle.ir_run.specs.Seen.{Answering};

    ghost Value = { Answering };

    ghost view = { λ m. record { going = m.inside; answer = option_map told_seen m.answer } };
}

impl<'m> Machine<'m> {
    /// How many steps were made so far.
    pub fn steps(&self) -> u64
        ensures { result ≡ (machine_seen self.now).steps }
    {
        self.inside.steps
    }

    /// Makes one step: enters what is due, and carries out one instruction. None where the run goes on, or else its end.
    ///
    /// Refused where a read or a write failed, or memory was wanted. The count of failed reads never falls, as long as a counter of
    /// 64 bits can tell it.
    pub fn step<I: Source, O: Sink>(
        &mut self,
        input: &mut I,
        output: &mut O,
    ) -> Result<Option<End>, RunFault>
        requires { (machine_seen self.old).steps < STEP_LIMIT }
        ensures steps { Steps result (machine_seen self.old) (machine_seen self.new) (outside (I.left input.old) (I.faults input.old) (O.taken output.old) (O.faults output.old)) (outside (I.left input.new) (I.faults input.new) (O.taken output.new) (O.faults output.new)) }
        ensures later { I.faults input.old < 2 ^ 64 → I.faults input.old ≤ I.faults input.new }
    {
        if let Some(told) = self.answer {
            return told.step_answer();
        }
        let result = self.inside.step(input, output);
        self.answer = ToldEnd::of_step(&result);
        result
    }

    /// Makes steps to an end or a fault, or until their count is the bound: then the end is that steps are used up, or one that comes on
    /// entering what is due.
    ///
    /// Refused where a read or a write failed, or memory was wanted. The count of failed reads never falls, as long as a counter of
    /// 64 bits can tell it.
    pub fn run<I: Source, O: Sink>(
        &mut self,
        bound: u64,
        input: &mut I,
        output: &mut O,
    ) -> Result<End, RunFault>
        requires { bound ≤ STEP_LIMIT }
        ensures runs { Runs bound result (machine_seen self.old) (machine_seen self.new) (outside (I.left input.old) (I.faults input.old) (O.taken output.old) (O.faults output.old)) (outside (I.left input.new) (I.faults input.new) (O.taken output.new) (O.faults output.new)) }
        ensures later { I.faults input.old < 2 ^ 64 → I.faults input.old ≤ I.faults input.new }
    {
        if let Some(told) = self.answer {
            return told.answer();
        }
        let result = run_actions::loops::run(&mut self.inside, bound, input, output);
        self.answer = Some(ToldEnd::of_run(&result));
        result
    }
}
