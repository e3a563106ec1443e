//! A module run.
ghost use Rattle.std.specs.Prelude.{◌≤◌};
ghost use Rattle.module_arena.specs.View.{module_of};
ghost use Rattle.run_actions.specs.declared.loops.stepping.TheConstants.{STEP_LIMIT};
ghost use Rattle.run_rules.specs.Clauses.{outside};
ghost use Rattle.run_rules.specs.Played.Played.{Plays};

use crate::machine::Machine;
use crate::opening::OpenedMachine;
use ir_base::{Sink, Source, TextList};
use module_arena::Checked;
use run_rules::played::{early_ends_are_played, runs_are_played};
use run_rules::{End, RunFault};
use std::alloc::Global;

/// Runs a module with these words, the first of which is the program's name, for at most so many steps: its end. What it reads and prints goes by the
/// input and the output, which it reads only when all that was printed before is written.
///
/// Refused where a read or a write failed, or memory was wanted. Then what was printed is told: up to the getchar whose read failed, or a front.
pub fn run_module<I: Source, O: Sink>(
    alloc: Global,
    checked: &Checked,
    words: &TextList,
    bound: u64,
    input: &mut I,
    output: &mut O,
) -> Result<End, RunFault>
    requires { bound ≤ STEP_LIMIT }
    ensures { Plays (record { code = module_of checked.now; words = words.now; bound = bound }) result
        (outside (I.left input.old) (I.faults input.old) (O.taken output.old) (O.faults output.old)) (outside (I.left input.new) (I.faults input.new) (O.taken output.new) (O.faults output.new)) }
{
    // A run, or one that ends on opening, is that of its program.
    runs_are_played();
    early_ends_are_played();
    let opened = match Machine::open(alloc, checked, words) {
        Ok(opened) => opened,
        Err(_) => return Err(RunFault::Memory),
    };
    let mut machine = match opened {
        OpenedMachine::Ready(machine) => machine,
        OpenedMachine::Ended(end) => return Ok(end),
    };
    machine.run(bound, input, output)
}
