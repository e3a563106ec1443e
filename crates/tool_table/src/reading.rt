//! What the words of a command line are read as, as text.

use crate::telling::{add, add_number};
use command_line::{Command, OutputName, SelectionWords, line_name, read_words};
use ir_base::{NameList, Text, TextList};
use std::alloc::{AllocError, Global};

fn add_text(shown: &mut Vec<u8>, text: &Text) -> Result<(), AllocError> {
    add(shown, " [")?;
    shown.extend_from_slice(text.bytes())?;
    add(shown, "]")
}

fn add_texts(shown: &mut Vec<u8>, texts: &TextList) -> Result<(), AllocError> {
    for text in texts.as_slice() {
        add_text(shown, text)?;
    }
    Ok(())
}

fn add_names(shown: &mut Vec<u8>, mark: &str, names: &NameList) -> Result<(), AllocError> {
    for name in names.as_slice() {
        add(shown, mark)?;
        add_text(shown, name.text())?;
    }
    Ok(())
}

fn add_output(shown: &mut Vec<u8>, output: &OutputName) -> Result<(), AllocError> {
    add(shown, " >")?;
    match output {
        OutputName::Standard => add(shown, " standard"),
        OutputName::File(name) => add_text(shown, name),
    }
}

fn add_flag(shown: &mut Vec<u8>, mark: &str, given: bool) -> Result<(), AllocError> {
    add(shown, if given { mark } else { "" })
}

fn add_selection(shown: &mut Vec<u8>, selection: &SelectionWords) -> Result<(), AllocError> {
    add_names(shown, ", function", &selection.functions)?;
    add_names(shown, ", variable", &selection.variables)?;
    add_names(shown, ", alias", &selection.aliases)?;
    add_flag(shown, ", delete", selection.delete)?;
    add_flag(shown, ", recursive", selection.recursive)
}

fn add_work(
    shown: &mut Vec<u8>,
    work: &str,
    input: &Text,
    output: &OutputName,
) -> Result<(), AllocError> {
    add(shown, work)?;
    add_text(shown, input)?;
    add_output(shown, output)
}

fn add_run(
    shown: &mut Vec<u8>,
    alloc: Global,
    input: &Text,
    max_steps: u64,
    arguments: &TextList,
) -> Result<(), AllocError> {
    add(shown, "run")?;
    add_text(shown, input)?;
    add(shown, " for ")?;
    add_number(shown, alloc, max_steps)?;
    add(shown, " with")?;
    add_texts(shown, arguments)
}

fn add_command(shown: &mut Vec<u8>, alloc: Global, command: &Command) -> Result<(), AllocError> {
    match command {
        Command::Assemble { input, output } => add_work(shown, "assemble", input, output),
        Command::Disassemble { input, output } => add_work(shown, "disassemble", input, output),
        Command::Link {
            inputs,
            output,
            text,
        } => {
            add(shown, "link")?;
            add_texts(shown, inputs)?;
            add_output(shown, output)?;
            add_flag(shown, ", text", *text)
        }
        Command::Extract {
            input,
            output,
            text,
            selection,
        } => {
            add_work(shown, "extract", input, output)?;
            add_flag(shown, ", text", *text)?;
            add_selection(shown, selection)
        }
        Command::Lli {
            input,
            max_steps,
            arguments,
        } => add_run(shown, alloc, input, *max_steps, arguments),
        Command::Analyze { input, dump } => {
            add(shown, "analyze")?;
            add_text(shown, input)?;
            add_flag(shown, ", dump", *dump)
        }
    }
}

/// Adds a command line and the command that its words are read as, or the line of their fault.
pub fn add_reading(
    shown: &mut Vec<u8>,
    alloc: Global,
    line: &[u8],
    words: &[Text],
) -> Result<(), AllocError> {
    shown.extend_from_slice(line)?;
    add(shown, " => ")?;
    match read_words(alloc, words) {
        Ok(command) => add_command(shown, alloc, &command)?,
        Err(fault) => {
            let text = format!(in alloc; "{}: {}", line_name(words), fault)?;
            add(shown, text.as_str())?;
        }
    }
    add(shown, "\n")
}
