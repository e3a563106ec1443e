//! What the tools do with the texts of their inputs.
ghost use Rattle.std.specs.Prelude.{◌≡◌, ◌<◌, length, slice_get, Some, false};
ghost use Rattle.tool_output.specs.Outputs.{outputs};
ghost use Rattle.tool_cli.specs.Analyzed.{is_analysis};
ghost use Rattle.tool_cli.specs.Done.{EndsWork, LeavesSinks};
ghost use Rattle.tool_cli.specs.Inputs.{hears, inputs_of, runs_program};
ghost use Rattle.tool_cli.specs.Judged.{AreShort};
ghost use Rattle.tool_cli.specs.Output.{output_of, IsWritten, LeavesStandard};
ghost use Rattle.tool_cli.specs.Running.{StepsFit, IsRanBy, IsUnbegun};
ghost use Rattle.tool_cli.specs.Told.{IsOfRun};
ghost use Rattle.tool_cli.specs.World.{sinks, streams};

use crate::analysis::analyze;
use crate::assembling::assemble;
use crate::disassembling::disassemble;
use crate::extraction::extract_part;
use crate::linking::link;
use crate::running::run_bytes;
use command_line::Command;
use ir_base::{Files, Sink, Source, Text, TextList};
use std::alloc::Global;
use tool_output::ends::Ended;

// The first of some texts.
fn first_text(texts: TextList) -> Text
    requires { 0 < length texts }
    ensures { slice_get texts 0 ≡ Some result }
{
    let mut all = texts.into_vec();
    all.swap_remove(0)
}

/// Does what the command says with the texts of its inputs, each of at most 16 MiB. A text of a module is let go when it was
/// read. A program that is run has standard input for its own, but where its module came from there.
pub fn work<F: Files, I: Source, O: Sink>(
    alloc: Global,
    command: &Command,
    texts: TextList,
    files: &mut F,
    input: &mut I,
    output: &mut O,
) -> Ended
    requires count { length texts ≡ length (inputs_of command.now) }
    requires short { AreShort texts }
    requires steps { StepsFit command.now }
    // What is answered.
    ensures work { runs_program command.now ≡ false → EndsWork command.now texts
        (sinks O.Sink F.Files output.old files.old) (sinks O.Sink F.Files output.new files.new) result }
    ensures of_work { IsOfRun result (hears command.now) }
    ensures leaves { LeavesSinks (output_of command.now)
        (sinks O.Sink F.Files output.old files.old) (sinks O.Sink F.Files output.new files.new) result }
    ensures ran { IsRanBy command.now texts (streams I.Source O.Sink input.old output.old) (streams I.Source O.Sink input.new output.new) result }

    // What is read and written.
    ensures written { runs_program command.now ≡ false
        → IsWritten command.now texts (outputs (O.taken output.old) (F.contents files.old)) (outputs (O.taken output.new) (F.contents files.new)) result }
    ensures unwritten { is_analysis command.now ≡ false → runs_program command.now ≡ false → LeavesStandard (output_of command.now) result → output.new ≡ output.old }
    ensures unread { hears command.now ≡ false → input.new ≡ input.old }
    ensures not_begun { IsUnbegun command.now result → (input.new ≡ input.old) × (output.new ≡ output.old) }
{
    match command {
        Command::Analyze { input, dump } => {
            analyze(alloc, input, texts.at(0).bytes(), *dump, output)
        }
        Command::Assemble {
            input,
            output: place,
        } => assemble(alloc, input, first_text(texts), place, files, output),
        Command::Disassemble {
            input,
            output: place,
        } => disassemble(alloc, input, texts.at(0).bytes(), place, files, output),
        Command::Link {
            inputs,
            output: place,
            text,
        } => link(alloc, inputs.as_slice(), texts, place, *text, files, output),
        Command::Extract {
            input,
            output: place,
            text,
            selection,
        } => {
            let source = first_text(texts);
            extract_part(alloc, input, source, selection, place, *text, files, output)
        }
        Command::Lli {
            input: name,
            max_steps,
            arguments,
        } => {
            let program = first_text(texts);
            run_bytes(alloc, name, program, arguments, *max_steps, input, output)
        }
    }
}
