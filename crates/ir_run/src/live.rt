//! What instructions see of a run.
ghost use Rattle.std.specs.Prelude.{◌≡◌, ◌==◌, ◌+◌, ◌<◌, ◌≤◌, ℕ, [], IfOk, length, OnErr, OnOk, true};
ghost use Rattle.ir_run.specs.Living.{Acts, Enters, HasFrames, IsLive, may_want_in, StaysEntered, StaysIn, StaysLive, TakesNumber, Turns};
ghost use Rattle.run_acts.specs.Acting.{IsOuter, is_outer_here};
ghost use Rattle.run_actions.specs.declared.loops.stepping.TheConstants.{STEP_LIMIT};
ghost use Rattle.ir_run.specs.Stretch.{LeavesOff, StaysBehind, Walks};
ghost use Rattle.run_actions.specs.Passing.Traffic.{Gets};
ghost use Rattle.run_rules.specs.Clauses.{outside};

use crate::stretch::{Stretch, StretchEnd, walk};
use ir_base::{Sink, Source};
use ir_memory::Memory;
use run_actions::passing::get;
use run_actions::stack::Stack;
use run_acts::program::Program;
use run_acts::{Buffers, DueCalls, Next, Stop, call_due, call_or_return, calls_or_returns};
use run_rules::RunFault;
use run_rules::traffic::{Input, Output};
use std::alloc::AllocError;
use std::marker::Model;

/// What instructions see of a run: what is run, the frames, memory, and what is due. What an instruction writes stands in the room.
#[derive(Drop)]
pub(crate) struct Live<'m> {
    pub program: Program<'m>,
    pub stack: Stack,
    pub memory: Memory,
    pub due: DueCalls,
    pub room: Buffers,
}

impl<'m> Model for Live<'m> {
    ghost use Rattle.ir_run.specs.Living.{Living};

    ghost Value = { Living };

    ghost view = { λ l. record { program = l.program; stack = l.stack; memory = l.memory; due = l.due; written = l.room.written.items } };
}

/// What a step comes to, but for the bytes on their way.
#[derive(Clone, Copy)]
pub(crate) enum Turn {
    /// The run is over on entering what is due, before any instruction.
    Over(Stop),
    /// An instruction was carried out, and came to this.
    Came(Next),
}

impl<'m> Live<'m> {
    /// While no function is under way, what is due is called; a stop comes back where the run is over by that.
    ///
    /// It is refused for want of memory alone, and only where no function was under way.
    #[inline(always)]
    pub fn enter_due(&mut self) -> Result<Option<Stop>, AllocError>
        requires { (steps : ℕ) × IsLive steps self.old }
        ensures entered { IfOk result (λ stop. Enters stop self.old self.new) }
        ensures live { (steps : ℕ) → IsLive steps self.old → IfOk result (λ stop. StaysEntered steps stop self.new) }
        ensures idle { OnErr result (self.old.stack.frames ≡ []) }
        ensures kept { OnErr result (self.new.program.lists ≡ self.old.program.lists) }
    {
        if self.is_idle() {
            let stop = self.enter_idle()?;
            return Ok(stop);
        }
        Ok(None)
    }

    // Whether no function is under way.
    #[inline(always)]
    fn is_idle(&self) -> bool
        ensures { result ≡ (length self.now.stack.frames == 0) }
    {
        self.stack.is_empty()
    }

    // What is due is called, one call after another, until a function is under way or the run is over.
    #[inline(never)]
    fn enter_idle(&mut self) -> Result<Option<Stop>, AllocError>
        requires { (steps : ℕ) × IsLive steps self.old }
        ensures entered { IfOk result (λ stop. Enters stop self.old self.new) }
        ensures live { (steps : ℕ) → IsLive steps self.old → IfOk result (λ stop. StaysEntered steps stop self.new) }
        ensures idle { OnErr result (self.old.stack.frames ≡ []) }
        ensures kept { OnErr result (self.new.program.lists ≡ self.old.program.lists) }
    {
        'idle: while self.stack.is_empty() {
            let Some(due) = self.due.next() else {
                return Ok(None);
            };
            match call_due(&mut self.program, &mut self.stack, due)? {
                Next::Goes => {}
                Next::Stops(stop) => return Ok(Some(stop)),
                // What is due asks for no byte.
                Next::Gets(_) => unreachable!(),
            }
        }
        Ok(None)
    }

    /// Carries out the instruction that is due in the newest function. What it writes stands in the room.
    ///
    /// It is refused for want of memory alone, by an instruction that may want it.
    #[inline(always)]
    pub fn act(&mut self) -> Result<Next, AllocError>
        requires frames { HasFrames self.old }
        requires live { (steps : ℕ) × IsLive steps self.old × (steps < STEP_LIMIT) }
        ensures acted { IfOk result (λ next. Acts next self.old self.new) }
        ensures live { (steps : ℕ) → IsLive steps self.old → IfOk result (λ next. StaysLive steps next self.new) }
        ensures wants { OnErr result (may_want_in self.old ≡ true) }
        ensures kept { OnErr result (self.new.program.lists ≡ self.old.program.lists) }
    {
        self.room.written.clear();
        if self.crosses() {
            return self.cross();
        }
        let stretch = self.go_one();
        match stretch.end {
            StretchEnd::Stops(stop) => Ok(Next::Stops(stop)),
            StretchEnd::Wants => Err(AllocError),
            // One was carried out, since it neither calls nor returns.
            StretchEnd::Waits => Ok(Next::Goes),
        }
    }

    // Carries out one instruction of the newest frame, if it neither calls nor returns.
    #[inline(never)]
    fn go_one(&mut self) -> Stretch
        requires { (steps : ℕ) × IsLive steps self.old × (steps + 1 ≤ STEP_LIMIT) }
        ensures few { result.count ≤ 1 }
        ensures further { LeavesOff 1 result.count result.end self.new.program self.new.stack }
        ensures walks { Walks result self.old self.new }
        ensures live { (steps : ℕ) → IsLive steps self.old → StaysBehind steps result self.new }
        ensures written { self.new.written ≡ self.old.written }
    {
        self.go_on(1)
    }

    // Whether the instruction that is due in the newest function calls or returns.
    #[inline(always)]
    fn crosses(&self) -> bool
        requires frames { HasFrames self.now }
        requires live { (steps : ℕ) × IsLive steps self.now × (steps < STEP_LIMIT) }
        ensures { result ≡ is_outer_here self.now.program self.now.stack }
    {
        calls_or_returns(&self.program, &self.stack)
    }

    // Carries out the call or the return that is due in the newest function. What it writes stands in the room, in which nothing is.
    #[inline(always)]
    fn cross(&mut self) -> Result<Next, AllocError>
        requires frames { HasFrames self.old }
        requires outer { IsOuter self.old.program self.old.stack }
        requires none { self.old.written ≡ [] }
        requires live { (steps : ℕ) × IsLive steps self.old × (steps < STEP_LIMIT) }
        ensures acted { IfOk result (λ next. Acts next self.old self.new) }
        ensures live { (steps : ℕ) → IsLive steps self.old → IfOk result (λ next. StaysLive steps next self.new) }
        ensures wants { OnErr result (may_want_in self.old ≡ true) }
        ensures kept { OnErr result (self.new.program.lists ≡ self.old.program.lists) }
    {
        let is_last = self.due.is_empty();
        call_or_return(
            &mut self.program,
            &mut self.stack,
            &mut self.memory,
            is_last,
            &mut self.room,
        )
    }

    /// Enters what is due, and carries out an instruction. What that writes stands in the room.
    ///
    /// It is refused for want of memory alone, where no function was under way, or by an instruction that may want it.
    #[inline(always)]
    pub fn turn(&mut self) -> Result<Turn, AllocError>
        requires { (steps : ℕ) × IsLive steps self.old × (steps < STEP_LIMIT) }
        ensures turned { IfOk result (λ turn. Turns turn self.old self.new) }
        ensures live { (steps : ℕ) → IsLive steps self.old → IfOk result (λ turn. StaysIn steps turn self.new) }
        ensures wants { OnErr result (may_want_in self.old ≡ true) }
        ensures kept { OnErr result (self.new.program.lists ≡ self.old.program.lists) }
    {
        if let Some(stop) = self.enter_due()? {
            return Ok(Turn::Over(stop));
        }
        let next = self.act()?;
        Ok(Turn::Came(next))
    }

    /// Carries out instructions of the newest frame, as long as each goes on and neither calls nor returns, but no more than `most`.
    /// Where no function is under way there is none.
    #[inline(always)]
    pub fn go_on(&mut self, most: u64) -> Stretch
        requires { (steps : ℕ) × IsLive steps self.old × (steps + most ≤ STEP_LIMIT) }
        ensures few { result.count ≤ most }
        ensures further { LeavesOff most result.count result.end self.new.program self.new.stack }
        ensures walks { Walks result self.old self.new }
        ensures live { (steps : ℕ) → IsLive steps self.old → StaysBehind steps result self.new }
        ensures written { self.new.written ≡ self.old.written }
    {
        if self.is_idle() {
            let end = StretchEnd::Waits;
            return Stretch { count: 0, end };
        }
        walk(
            &self.program,
            &mut self.stack,
            &mut self.memory,
            &mut self.room.leaves,
            most,
        )
    }

    /// What the last instruction writes.
    #[inline(always)]
    pub fn written(&self) -> &[u8]
        ensures { result.now ≡ self.now.written }
    {
        &self.room.written
    }

    /// The newest frame gets the next byte of the input at that place, or -1 at its end. Before input is read all that is held is written.
    ///
    /// It is refused where a read or that write failed.
    #[inline(never)]
    pub fn take_byte<I: Source, O: Sink>(
        &mut self,
        to: u32,
        waiting: &mut Input,
        held: &mut Output,
        input: &mut I,
        output: &mut O,
    ) -> Result<(), RunFault>
        requires { (steps : ℕ) × IsLive steps self.old × HasFrames self.old × TakesNumber to self.old }
        ensures gets { Gets to result self.old.stack self.new.stack waiting.old waiting.new held.old held.new (outside (I.left input.old) (I.faults input.old) (O.taken output.old) (O.faults output.old)) (outside (I.left input.new) (I.faults input.new) (O.taken output.new) (O.faults output.new)) }
        ensures others { self.new ≡ record self.old { stack = self.new.stack } }
        ensures live { OnOk result ((steps : ℕ) → IsLive steps self.old → TakesNumber to self.old → IsLive steps self.new) }
    {
        get(&mut self.stack, to, waiting, held, input, output)
    }
}
