//! Instructions carried out one after another.
ghost use Rattle.std.specs.Prelude.{◌≤◌, ℕ, List};
ghost use Rattle.run_rules.specs.State.{Due};
ghost use Rattle.ir_run.specs.Living.{IsLive, living_of};
ghost use Rattle.ir_run.specs.Stretch.{LeavesOff, MayWalk, StaysBehind, Walks};

use ir_eval::Scalar;
use ir_memory::Memory;
use run_actions::stack::Stack;
use run_acts::program::Program;
use run_acts::{Next, Stop, act_inside};

/// What comes behind a stretch of instructions.
#[derive(Clone, Copy)]
pub(crate) enum StretchEnd {
    /// An instruction that calls or returns, or whatever there is where as many were carried out as were asked for.
    Waits,
    /// One more was carried out, which ended the run.
    Stops(Stop),
    /// For one more memory was wanted.
    Wants,
}

/// How many instructions were carried out, each of which went on, and what comes then.
#[derive(Clone, Copy)]
pub(crate) struct Stretch {
    pub count: u64,
    pub end: StretchEnd,
}

/// Carries out instructions one after another, as long as each goes on and neither calls nor returns, but no more than `most`. They
/// write nothing. What `room` has is lost.
#[inline(never)]
pub(crate) fn walk(
    program: &Program<'_>,
    stack: &mut Stack,
    memory: &mut Memory,
    room: &mut Vec<Scalar>,
    most: u64,
) -> Stretch
    requires { MayWalk program.now stack.old memory.old most }
    ensures few { result.count ≤ most }
    ensures further { LeavesOff most result.count result.end program.now stack.new }
    ensures walks { (due : List Due) → Walks result (living_of program.now stack.old due memory.old) (living_of program.now stack.new due memory.new) }
    ensures live { (steps : ℕ) (due : List Due) → IsLive steps (living_of program.now stack.old due memory.old) → StaysBehind steps result (living_of program.now stack.new due memory.new) }
{
    let decoded = program.body(stack.function());
    let mut count = 0;
    'walking: while count < most {
        match act_inside(decoded, stack, memory, room) {
            Ok(Some(Next::Goes)) => count += 1,
            Ok(Some(Next::Stops(stop))) => {
                let end = StretchEnd::Stops(stop);
                return Stretch { count, end };
            }
            // No instruction that stays in its function asks for a byte.
            Ok(Some(Next::Gets(_))) => unreachable!(),
            Ok(None) => {
                let end = StretchEnd::Waits;
                return Stretch { count, end };
            }
            Err(_) => {
                let end = StretchEnd::Wants;
                return Stretch { count, end };
            }
        }
    }
    let end = StretchEnd::Waits;
    Stretch { count, end }
}
