//! A text assembled, and what it makes written.
ghost use Rattle.std.specs.Prelude.{[], ◌∷◌};
ghost use Rattle.command_line.specs.declared.command.Command.TheVariants as commands;
ghost use Rattle.tool_cli.specs.Done.{IsDone};
ghost use Rattle.tool_cli.specs.Judged.{IsShort};
ghost use Rattle.tool_cli.specs.World.{sinks};

use crate::delivery::deliver;
use crate::parts::accepted_text;
use command_line::OutputName;
use ir_base::{Files, Sink, Text};
use std::alloc::Global;
use std::mem::forget;
use tool_output::OutputFormat;
use tool_output::ends::Ended;

/// Writes the bitcode of the text of the input of this name to this place. Bytes that begin as bitcode does are a text like any other, so their
/// first bad byte is told.
pub(crate) fn assemble<F: Files, O: Sink>(
    alloc: Global,
    name: &Text,
    text: Text,
    place: &OutputName,
    files: &mut F,
    output: &mut O,
) -> Ended
    requires { IsShort text }
    ensures { IsDone (commands.Assemble name.now place.now) (text ∷ [])
        (sinks O.Sink F.Files output.old files.old) (sinks O.Sink F.Files output.new files.new) result }
{
    let accepted = match accepted_text(alloc, name, text) {
        Ok(accepted) => accepted,
        Err(ended) => return ended,
    };
    let format = OutputFormat::Bitcode;
    let ended = deliver(alloc, format, place, &accepted.checked, files, output);
    // The program ends soon, which gives all memory back at once: piece by piece would go over all of it again.
    forget(accepted);
    ended
}
