//! The whole program, over whatever it reads and writes.
ghost use Rattle.std.specs.Prelude.{◌≡◌, []};
ghost use Rattle.ir_base.specs.Outside.{Wrote};
ghost use Rattle.tool_output.specs.Ends.Ended.{line_of, status_of};
ghost use Rattle.tool_cli.specs.Ends.{EndsAs};
ghost use Rattle.tool_cli.specs.Headline.{LinkedRunsAsParts};
ghost use Rattle.tool_cli.specs.Running.{InputRunsAsParts};
ghost use Rattle.tool_cli.specs.World.{world};

use crate::inputs::{inputs_of, read_inputs};
use crate::work::work;
use canonical::reads::canon_is_read_back;
use command_line::{WordsFault, read_words};
use ir_base::{Files, Sink, Source, Text};
use name_rules::one_module;
use record_law::alone::modules_are_spelled_alone;
use std::alloc::Global;
use tool_output::ends::{Ended, Report, status_of, tell};

// Reads the words, then all inputs, and then does the work.
fn ended_of<F: Files, I: Source, O: Sink>(
    alloc: Global,
    words: &[Text],
    files: &mut F,
    input: &mut I,
    output: &mut O,
) -> Ended
    ensures { EndsAs words.now
        (world I.Source O.Sink F.Files input.old output.old files.old)
        (world I.Source O.Sink F.Files input.new output.new files.new) result }
{
    let command = match read_words(alloc, words) {
        Ok(command) => command,
        Err(WordsFault::Usage { kind, word }) => return Ended::Usage { kind, word },
        Err(WordsFault::Memory) => return Ended::Memory,
    };
    match read_inputs(alloc, files, input, inputs_of(&command)) {
        Ok(texts) => work(alloc, &command, texts, files, input, output),
        Err(ended) => ended,
    }
}

/// Runs the tool that the words name, and answers the status and what it stands for.
///
/// `words` are those of the command line behind the program's own name. They are read first, then all inputs
/// whole, in the order of the words; then the tool does its work. The first refusal is the answer. The line of the end, if it has
/// one, is added to `errors`, or a front of it where a write of that failed.
pub fn run_tool<F: Files, I: Source, O: Sink, E: Sink>(
    alloc: Global,
    words: &[Text],
    files: &mut F,
    input: &mut I,
    output: &mut O,
    errors: &mut E,
) -> Report
    // What is answered, and what is read and written.
    ensures ends { EndsAs words.now
        (world I.Source O.Sink F.Files input.old output.old files.old)
        (world I.Source O.Sink F.Files input.new output.new files.new) result.ended }
    ensures status { result.status ≡ status_of result.ended }
    // The headline: what is linked runs as its parts do, never merged, or their conflict is told.
    ensures headline { LinkedRunsAsParts words.now
        (world I.Source O.Sink F.Files input.old output.old files.old)
        (world I.Source O.Sink F.Files input.new output.new files.new) result.ended }
    // Its second half: an input that stands for a module is run, and what it prints, and how it ends, is what parts do that it runs as.
    ensures ran { InputRunsAsParts words.now
        (world I.Source O.Sink F.Files input.old output.old files.old)
        (world I.Source O.Sink F.Files input.new output.new files.new) result.ended }
    ensures errors { Wrote (E.taken errors.old) (E.taken errors.new) (E.faults errors.old) (E.faults errors.new) (line_of words.now result.ended) }
{
    // A text stands for one module, and so does what is written of a module.
    one_module();
    canon_is_read_back();
    modules_are_spelled_alone();
    let ended = ended_of(alloc, words, files, input, output);
    tell(errors, words, &ended);
    Report {
        status: status_of(&ended),
        ended,
    }
}

/// The end of a run whose words were not had, since memory ran out: its line names no tool.
pub fn end_without_words<E: Sink>(errors: &mut E) -> Report
    ensures ended { result.ended ≡ Ended.Memory }
    ensures status { result.status ≡ status_of Ended.Memory }
    ensures errors { Wrote (E.taken errors.old) (E.taken errors.new) (E.faults errors.old) (E.faults errors.new) (line_of [] Ended.Memory) }
{
    let ended = Ended::Memory;
    tell(errors, &[], &ended);
    Report {
        status: status_of(&ended),
        ended,
    }
}
