//! Programs that `lli` runs.
ghost use Rattle.std.specs.Prelude.{◌≡◌, ◌⊎◌, ◌≤◌, true, [], Some, Err, codes};
ghost use Rattle.command_line.specs.Options.{is_dash};
ghost use Rattle.command_line.specs.declared.number.TheConstants.{LARGEST_NUMBER};
ghost use Rattle.module_arena.specs.View.{module_of};
ghost use Rattle.name_rules.specs.Spelled.{spelled_global};
ghost use Rattle.tool_cli.specs.Judged.{IsShort};
ghost use Rattle.tool_cli.specs.Running.{end_told, program_of, AnswerTold, IsRunTo, IsRan, IsBeforeRun};
ghost use Rattle.tool_cli.specs.World.{streams};

use crate::parts::{GivenBack, accepted_part};
use command_line::is_dash;
use ir_base::{Failed, Name, Sink, Source, Text, TextList};
use ir_run::run_module;
use module_arena::Checked;
use name_rules::spell_global;
use run_rules::played::early_ends_are_played;
use run_rules::{End, RunFault};
use std::alloc::Global;
use std::mem::forget;
use tool_output::ends::Ended;

// No input: there is nothing to read, and no read fails.
#[derive(Drop)]
struct NoInput;

impl Source for NoInput {
    ghost left = { λ input. Some [] };

    ghost faults = { λ input. 0 };

    fn read(&mut self, _into: &mut [u8]) -> Result<usize, Failed> {
        Ok(0)
    }
}

// The name that a program lacks, told.
fn unresolved_told(alloc: Global, name: &Name) -> Ended
    ensures { (result ≡ Ended.Unresolved (spelled_global name.now)) ⊎ (result ≡ Ended.Memory) }
{
    match spell_global(alloc, name.text().bytes()) {
        Ok(symbol) => Ended::Unresolved(symbol),
        Err(_) => Ended::Memory,
    }
}

// How a program ends, told.
fn end_told(alloc: Global, end: End) -> Ended
    ensures { (result ≡ end_told end) ⊎ (result ≡ Ended.Memory) }
{
    match end {
        End::Exit(status) => Ended::Exit(status),
        End::Undefined(kind) => Ended::Undefined(kind),
        End::StepsUsed => Ended::StepsUsed,
        End::StackLimit => Ended::StackLimit,
        End::MemoryLimit => Ended::MemoryLimit,
        End::Unresolved(name) => unresolved_told(alloc, &name),
        End::NoMain => Ended::NoMain,
    }
}

// Why a run has no end, told with the name of a standard stream.
fn fault_told(dash: Text, fault: RunFault) -> Ended
    requires { dash ≡ codes "-" }
    ensures { AnswerTold (Err fault) result }
{
    match fault {
        RunFault::ReadFault => Ended::CannotRead(dash),
        RunFault::WriteFault => Ended::CannotWrite(dash),
        RunFault::Memory => Ended::Memory,
    }
}

// Runs the program of a module with these words, for at most so many steps.
fn run_checked<I: Source, O: Sink>(
    alloc: Global,
    checked: Checked,
    words: &TextList,
    max_steps: u64,
    input: &mut I,
    output: &mut O,
) -> Ended
    requires { max_steps ≤ LARGEST_NUMBER }
    ensures { IsRunTo (program_of max_steps words.now (module_of checked))
        (streams I.Source O.Sink input.old output.old) (streams I.Source O.Sink input.new output.new) result }
{
    // A run for which memory was wanted is that of a program which has printed nothing.
    early_ends_are_played();
    // The name is made first, so that a fault is told whatever memory is left.
    let dash = match Text::from_slice(alloc, b"-") {
        Ok(dash) => dash,
        Err(_) => return Ended::Memory,
    };
    let run = run_module(alloc, &checked, words, max_steps, input, output);
    // The program ends soon, which gives all memory back at once.
    forget(checked);
    match run {
        Ok(end) => end_told(alloc, end),
        Err(fault) => fault_told(dash, fault),
    }
}

/// Runs the module that the input of this name stands for, with these words, for at most so many steps. The bytes of the
/// input are let go before the run begins. Where it came from standard input, the program has no input.
pub(crate) fn run_bytes<I: Source, O: Sink>(
    alloc: Global,
    name: &Text,
    bytes: Text,
    words: &TextList,
    max_steps: u64,
    input: &mut I,
    output: &mut O,
) -> Ended
    requires short { IsShort bytes }
    requires steps { max_steps ≤ LARGEST_NUMBER }
    ensures ran { IsRan name.now max_steps words.now bytes
        (streams I.Source O.Sink input.old output.old) (streams I.Source O.Sink input.new output.new) result }
    ensures unread { is_dash name.now ≡ true → input.new ≡ input.old }
    ensures not_begun { IsBeforeRun name.now result → (input.new ≡ input.old) × (output.new ≡ output.old) }
{
    // To give the items of a large text back takes longer than to open its program.
    let checked = match accepted_part(alloc, name, bytes, GivenBack::AtTheEnd) {
        Ok(checked) => checked,
        Err(ended) => return ended,
    };
    if is_dash(name.bytes()) {
        let mut nothing = NoInput;
        run_checked(alloc, checked, words, max_steps, &mut nothing, output)
    } else {
        run_checked(alloc, checked, words, max_steps, input, output)
    }
}
