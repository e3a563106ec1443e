//! Modules on their way to where results go.
ghost use Rattle.std.specs.Prelude.{◌≡◌, Some};
ghost use Rattle.module_arena.specs.View.{module_of};
ghost use Rattle.tool_output.specs.Outputs.{outputs};
ghost use Rattle.tool_output.specs.Written.{written};
ghost use Rattle.tool_cli.specs.Done.{LeavesSinks};
ghost use Rattle.tool_cli.specs.Output.{Delivers, LeavesStandard};
ghost use Rattle.tool_cli.specs.World.{sinks};

use command_line::OutputName;
use ir_base::{Files, Sink};
use module_arena::Checked;
use std::alloc::Global;
use tool_output::ends::Ended;
use tool_output::{OutputFault, OutputFormat, write_module};

/// Writes a module in this format to where it goes.
pub(crate) fn deliver<F: Files, O: Sink>(
    alloc: Global,
    format: OutputFormat,
    place: &OutputName,
    checked: &Checked,
    files: &mut F,
    output: &mut O,
) -> Ended
    ensures delivered { Delivers place.now (written format (module_of checked.now)) (outputs (O.taken output.old) (F.contents files.old)) (outputs (O.taken output.new) (F.contents files.new)) result }
    ensures leaves { LeavesSinks (Some place.now)
        (sinks O.Sink F.Files output.old files.old) (sinks O.Sink F.Files output.new files.new) result }
    ensures unwritten { LeavesStandard (Some place.now) result → output.new ≡ output.old }
{
    match write_module(alloc, format, place, checked, files, output) {
        Ok(()) => Ended::Ok,
        Err(OutputFault::CannotWrite(name)) => Ended::CannotWrite(name),
        Err(OutputFault::Memory) => Ended::Memory,
    }
}
