//! A run on its way.
ghost use Rattle.ir_run.specs.Seen.{the_machine};

use crate::live::{Live, Turn};
use crate::stretch::StretchEnd;
use ir_base::{Sink, Source};
use ir_tables::UndefinedKind;
use run_actions::loops::Stepping;
use run_actions::passing::{finish, put};
use run_acts::Next;
use run_rules::traffic::{Input, Output};
use run_rules::{End, RunFault};
use std::marker::Model;

/// A run on its way: what instructions see of it, the bytes that wait, and the steps so far.
///
/// From the first end or fault on it is over. What a step has left half done is seen by no one then: a clause sees a run without a
/// function, and without anything that is due.
#[derive(Drop)]
pub(crate) struct Inside<'m> {
    pub live: Live<'m>,
    pub input: Input,
    pub output: Output,
    pub steps: u64,
    pub is_over: bool,
}

impl<'m> Model for Inside<'m> {
    ghost use Rattle.std.specs.Prelude.{◌≡◌, false};
    ghost use Rattle.ir_run.specs.Living.{going, IsOnItsWay};
    ghost use Rattle.ir_run.specs.Seen.{Going};

    ghost Value = { Going };

    ghost view = { λ i. going i.live i.input i.output i.steps i.is_over };

    ghost invariant = { λ i. i.is_over ≡ false → IsOnItsWay i.steps i.live i.output };
}

impl<'m> Stepping for Inside<'m> {
    ghost machine = { the_machine };

    fn steps(&self) -> u64 {
        self.steps
    }

    #[inline(always)]
    fn step<I: Source, O: Sink>(
        &mut self,
        input: &mut I,
        output: &mut O,
    ) -> Result<Option<End>, RunFault> {
        if self.is_over {
            // Where no function is under way there is no instruction.
            let none = End::Undefined(UndefinedKind::Unreachable);
            let end = finish(none, &mut self.output, output)?;
            self.steps += 1;
            return Ok(Some(end));
        }
        // Until the step is whole.
        self.is_over = true;
        match self.live.turn()? {
            Turn::Over(stop) => Ok(Some(finish(stop.end(), &mut self.output, output)?)),
            Turn::Came(Next::Stops(stop)) => {
                let end = finish(stop.end(), &mut self.output, output)?;
                self.steps += 1;
                Ok(Some(end))
            }
            Turn::Came(Next::Goes) => {
                put(&mut self.output, self.live.written(), output)?;
                self.steps += 1;
                self.is_over = false;
                Ok(None)
            }
            Turn::Came(Next::Gets(to)) => {
                self.live
                    .take_byte(to, &mut self.input, &mut self.output, input, output)?;
                self.steps += 1;
                self.is_over = false;
                Ok(None)
            }
        }
    }

    #[inline(always)]
    fn go_on<I: Source, O: Sink>(
        &mut self,
        bound: u64,
        _input: &I,
        output: &mut O,
    ) -> Result<Option<End>, RunFault> {
        if self.is_over {
            return Ok(None);
        }
        // Until the stretch is whole.
        self.is_over = true;
        let stretch = self.live.go_on(bound - self.steps);
        self.steps += stretch.count;
        match stretch.end {
            StretchEnd::Waits => {
                self.is_over = false;
                Ok(None)
            }
            StretchEnd::Stops(stop) => {
                let told = finish(stop.end(), &mut self.output, output)?;
                self.steps += 1;
                Ok(Some(told))
            }
            StretchEnd::Wants => Err(RunFault::Memory),
        }
    }

    fn halt<I: Source, O: Sink>(&mut self, _input: &I, output: &mut O) -> Result<End, RunFault> {
        if self.is_over {
            return finish(End::StepsUsed, &mut self.output, output);
        }
        self.is_over = true;
        match self.live.enter_due()? {
            Some(sooner) => finish(sooner.end(), &mut self.output, output),
            None => finish(End::StepsUsed, &mut self.output, output),
        }
    }
}
