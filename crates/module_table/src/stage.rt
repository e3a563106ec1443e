//! The parts of which something is asked.

use crate::answering::add_answer;
use crate::lines::{parts, unescaped};
use crate::reading::read_checked;
use crate::telling::add;
use module_arena::Checked;
use std::alloc::{AllocError, Global};
use std::io::Write;
use std::{io, mem};

/// The parts of which something is asked.
#[derive(Drop)]
pub(crate) struct Stage {
    parts: Vec<Checked>,
    // Whether a text was no valid module.
    refused: bool,
    // The text that is being said, of a part where one was begun.
    text: Vec<u8>,
    begun: bool,
}

impl Stage {
    /// No parts.
    pub(crate) fn new(alloc: Global) -> Stage {
        Stage {
            parts: Vec::new(alloc),
            refused: false,
            text: Vec::new(alloc),
            begun: false,
        }
    }

    // Makes a part of the text that was said.
    fn finish(&mut self, alloc: Global) -> Result<(), AllocError> {
        let text = mem::replace(&mut self.text, Vec::new(alloc));
        if !mem::replace(&mut self.begun, false) {
            return Ok(());
        }
        match read_checked(alloc, text.as_slice()) {
            Some(part) => self.parts.push(part)?,
            None => self.refused = true,
        }
        Ok(())
    }

    /// Takes a line that says something of the parts.
    pub(crate) fn take(
        &mut self,
        alloc: Global,
        key: &[u8],
        rest: &[u8],
    ) -> Result<(), AllocError> {
        match key {
            b"clear" => *self = Stage::new(alloc),
            b"part" => {
                self.finish(alloc)?;
                self.begun = true;
            }
            b"|" => {
                self.text
                    .extend_from_slice(unescaped(alloc, rest)?.as_slice())?;
                self.text.push(b'\n')?;
            }
            b"+" => self
                .text
                .extend_from_slice(unescaped(alloc, rest)?.as_slice())?,
            _ => {}
        }
        Ok(())
    }

    /// Adds a question and its answer.
    pub(crate) fn ask(
        &mut self,
        alloc: Global,
        question: &[u8],
        told: &mut Vec<u8>,
    ) -> Result<(), AllocError> {
        self.finish(alloc)?;
        add(told, "> ")?;
        told.extend_from_slice(question)?;
        add(told, "\n")?;
        if self.refused {
            return add(told, "no module\n");
        }
        add_answer(told, alloc, self.parts.as_slice(), question)
    }
}

/// Prints the answers to the questions of a script.
pub(crate) fn print_linked(rt: &HostRuntime, script: &[u8]) -> io::Result<()> {
    let alloc = rt.alloc();
    let mut stage = Stage::new(alloc);
    for line in script.split(|byte| *byte == b'\n') {
        let mut told = Vec::new(alloc);
        let (key, rest) = parts(line);
        match key {
            b"conflict" | b"symbols" | b"home" | b"own" | b"bind" | b"places" => {
                stage.ask(alloc, line, &mut told)?
            }
            _ => stage.take(alloc, key, rest)?,
        }
        rt.stdout().write_all(told.as_slice())?;
    }
    Ok(())
}
