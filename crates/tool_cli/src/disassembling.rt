//! Bitcode disassembled, and what it makes written.
ghost use Rattle.std.specs.Prelude.{[], ◌∷◌};
ghost use Rattle.command_line.specs.declared.command.Command.TheVariants as commands;
ghost use Rattle.tool_cli.specs.Done.{IsDone};
ghost use Rattle.tool_cli.specs.Judged.{IsShort};
ghost use Rattle.tool_cli.specs.World.{sinks};

use crate::bitcode::accepted_bitcode;
use crate::delivery::deliver;
use command_line::OutputName;
use ir_base::{Files, Sink, Text};
use std::alloc::Global;
use std::mem::forget;
use tool_output::OutputFormat;
use tool_output::ends::Ended;

/// Writes the canonical text of the module that the bytes of the input of this name spell to this place. Bytes that do not begin as bitcode does spell none.
pub(crate) fn disassemble<F: Files, O: Sink>(
    alloc: Global,
    name: &Text,
    bytes: &[u8],
    place: &OutputName,
    files: &mut F,
    output: &mut O,
) -> Ended
    requires { IsShort bytes.now }
    ensures { IsDone (commands.Disassemble name.now place.now) (bytes.now ∷ [])
        (sinks O.Sink F.Files output.old files.old) (sinks O.Sink F.Files output.new files.new) result }
{
    let checked = match accepted_bitcode(alloc, name, bytes) {
        Ok(checked) => checked,
        Err(ended) => return ended,
    };
    let format = OutputFormat::CanonicalText;
    let ended = deliver(alloc, format, place, &checked, files, output);
    // The program ends soon, which gives all memory back at once.
    forget(checked);
    ended
}
