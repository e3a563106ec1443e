//! What calls on sources, sinks and files give, in memory and of the host.
//!
//! A line is a call and its arguments, with one space between two. An argument `-` is nothing, and
//! `\ff` in one is the byte of that code.
mod host;
mod interrupted;
mod outcome;

use crate::word::{number, word};
use ir_base::{
    Files, MemoryFiles, MemorySink, MemorySource, Name, NumberList, Sink, Source, Text, read_all,
    write_pieces,
};
use outcome::{Outcome, bytes_of, numbers_of, push_outcome};
use std::alloc::{AllocError, Global};
use std::rt;

/// A source, a sink and files in memory, each of which a line may make anew.
#[derive(Drop)]
pub struct Objects {
    source: MemorySource,
    sink: MemorySink,
    files: MemoryFiles,
}

impl Objects {
    /// An empty source, a sink with no room, and no files.
    pub fn new(alloc: Global) -> Result<Objects, AllocError> {
        Ok(Objects {
            source: MemorySource::new(Text::new(alloc), NumberList::new(alloc)),
            sink: MemorySink::new(alloc, 0, NumberList::new(alloc))?,
            files: MemoryFiles::new(alloc, NumberList::new(alloc)),
        })
    }

    /// Adds the answer to the line, whose call is made.
    pub fn push_answer<R: rt::Files>(
        &mut self,
        text: &mut String,
        rt: &R,
        alloc: Global,
        line: &str,
    ) -> Result<(), AllocError> {
        write!(text, "{line}: ")?;
        match word(line, 0) {
            "stream_read" => host::push_stream(text, rt, alloc, line),
            "interrupted_read" | "interrupted_write" => interrupted::push_answer(text, line),
            _ => match host::answer(rt, alloc, line) {
                Some(outcome) => push_outcome(text, outcome),
                None => push_outcome(text, self.answer(alloc, line)),
            },
        }
    }

    fn answer(&mut self, alloc: Global, line: &str) -> Result<Outcome, Outcome> {
        match word(line, 0) {
            "source" | "sink" | "files" => self.make(alloc, line),
            "read" => self.read(alloc, line),
            "read_all" => {
                let limit = number(word(line, 1)) as usize;
                Ok(Outcome::Bytes(read_all(alloc, &mut self.source, limit)?))
            }
            "write" => self.write(alloc, line),
            "write_pieces" => self.write_pieces(alloc, line),
            "taken" => Ok(Outcome::Bytes(Text::from_slice(alloc, self.sink.taken())?)),
            "name" => name(alloc, line),
            "put" | "get" | "read_file" | "write_file" => self.call_files(alloc, line),
            _ => Err(Outcome::Word("no such call")),
        }
    }

    // Makes a source, a sink or files anew.
    fn make(&mut self, alloc: Global, line: &str) -> Result<Outcome, Outcome> {
        match word(line, 0) {
            "source" => {
                let bytes = bytes_of(alloc, word(line, 1))?;
                self.source = MemorySource::new(bytes, numbers_of(alloc, line, 2)?);
            }
            "sink" => {
                let numbers = numbers_of(alloc, line, 2)?;
                self.sink = MemorySink::new(alloc, number(word(line, 1)), numbers)?;
            }
            _ => self.files = MemoryFiles::new(alloc, numbers_of(alloc, line, 1)?),
        }
        Ok(Outcome::Word("made"))
    }

    // Reads into a buffer of that size.
    fn read(&mut self, alloc: Global, line: &str) -> Result<Outcome, Outcome> {
        let mut buffer = vec![in alloc; 0u8; number(word(line, 1)) as usize]?;
        let into = buffer.as_mut_slice();
        if into.is_empty() {
            return Err(Outcome::Word("no call"));
        }
        let count = self.source.read(into)?;
        Ok(Outcome::Bytes(Text::from_slice(alloc, &into[..count])?))
    }

    fn write(&mut self, alloc: Global, line: &str) -> Result<Outcome, Outcome> {
        let piece = bytes_of(alloc, word(line, 1))?;
        if piece.bytes().is_empty() {
            return Err(Outcome::Word("no call"));
        }
        Ok(Outcome::Count(self.sink.write(piece.bytes())?))
    }

    // Writes four pieces, any of which may be nothing.
    fn write_pieces(&mut self, alloc: Global, line: &str) -> Result<Outcome, Outcome> {
        let first = bytes_of(alloc, word(line, 1))?;
        let second = bytes_of(alloc, word(line, 2))?;
        let third = bytes_of(alloc, word(line, 3))?;
        let fourth = bytes_of(alloc, word(line, 4))?;
        write_pieces(
            &mut self.sink,
            &[first.bytes(), second.bytes(), third.bytes(), fourth.bytes()],
        )?;
        Ok(Outcome::Word("done"))
    }

    fn call_files(&mut self, alloc: Global, line: &str) -> Result<Outcome, Outcome> {
        let name = bytes_of(alloc, word(line, 1))?;
        match word(line, 0) {
            "put" => {
                self.files.put(name, bytes_of(alloc, word(line, 2))?)?;
                Ok(Outcome::Word("done"))
            }
            "get" => match self.files.get(&name) {
                Some(bytes) => Ok(Outcome::Bytes(bytes.copy(alloc)?)),
                None => Err(Outcome::Word("none")),
            },
            "read_file" => {
                let bytes = self.files.read_file(alloc, &name, number(word(line, 2)))?;
                Ok(Outcome::Bytes(bytes))
            }
            _ => {
                let bytes = bytes_of(alloc, word(line, 2))?;
                self.files.write_file(alloc, &name, &bytes)?;
                Ok(Outcome::Word("done"))
            }
        }
    }
}

// A copy of the name, where the bytes are one.
fn name(alloc: Global, line: &str) -> Result<Outcome, Outcome> {
    match Name::from_text(bytes_of(alloc, word(line, 1))?) {
        Ok(name) => Ok(Outcome::Bytes(name.copy(alloc)?.text().copy(alloc)?)),
        Err(_) => Err(Outcome::Word("no name")),
    }
}
