//! The stream of an input, told.
ghost use Rattle.std.specs.Prelude.{◌≡◌, ◌⊎◌, ◌<◌, List, ℕ, Some, codes};
ghost use Rattle.ir_base.specs.Outside.{Rose};
ghost use Rattle.tool_cli.specs.Judged.{IsShort};
ghost use Rattle.command_line.specs.declared.command.OutputName.TheVariants.{Standard};
ghost use Rattle.tool_cli.specs.Output.{FailsToWrite, IsUnwrittenOrMemory};
ghost use Rattle.tool_cli.specs.Analyzed.{IsAnalysis, IsDumped};
ghost use Rattle.tool_cli.specs.Told.{IsOfWork};

use bit_dump::{DumpFault, dump};
use bit_stream::bits::BitFault;
use ir_base::{Sink, Text};
use std::alloc::Global;
use tool_output::ends::Ended;

// The end of a refused field, told with the name of its input.
fn bit_fault(alloc: Global, name: &Text, fault: BitFault) -> Ended
    ensures { (result ≡ Ended.BitFault name.now fault) ⊎ (result ≡ Ended.Memory) }
{
    match Text::from_slice(alloc, name.bytes()) {
        Ok(input) => Ended::BitFault { input, fault },
        Err(_) => Ended::Memory,
    }
}

// The end of a failed write of standard output.
fn cannot_write(alloc: Global) -> Ended
    ensures { (result ≡ Ended.CannotWrite (codes "-")) ⊎ (result ≡ Ended.Memory) }
{
    match Text::from_slice(alloc, b"-") {
        Ok(name) => Ended::CannotWrite(name),
        Err(_) => Ended::Memory,
    }
}

/// Tells the stream of the input of this name: with `whole` its entries and definitions, and always how many there
/// are. Nothing is written before the whole stream was read.
pub fn analyze<O: Sink>(
    alloc: Global,
    name: &Text,
    bytes: &[u8],
    whole: bool,
    output: &mut O,
) -> Ended
    requires { IsShort bytes.now }
    ensures analysis { IsAnalysis name.now bytes.now result ⊎ FailsToWrite (Some Standard) (Rose (O.faults output.old) (O.faults output.new)) ⊥ result }
    ensures shown { IsDumped bytes.now whole (O.taken output.old) (O.taken output.new) result }
    ensures output_fault { O.faults output.old < O.faults output.new → IsUnwrittenOrMemory result }
    ensures cannot_write { (name : List ℕ) → result ≡ Ended.CannotWrite name → (name ≡ codes "-") × Rose (O.faults output.old) (O.faults output.new) }
    ensures of_work { IsOfWork result }
{
    match dump(alloc, bytes, whole, output) {
        Ok(()) => Ended::Ok,
        Err(DumpFault::Bit(fault)) => bit_fault(alloc, name, fault),
        Err(DumpFault::WriteFault) => cannot_write(alloc),
        Err(DumpFault::Memory) => Ended::Memory,
    }
}
