//! What the next run finds: its files, standard input, and the calls that fail.

use crate::lines::{hex_of, number_of, numbers_of, parts, unescaped, word_of, words_of};
use crate::telling::{add, add_content, add_names, add_number, add_stream, add_word};
use crate::watched::{WatchedFiles, WatchedSource};
use ir_base::{MemoryFiles, MemorySink, MemorySource, NumberList, Text};
use std::alloc::{AllocError, Global};
use std::mem;
use tool_cli::{Report, run_tool};

// How many bytes a stream takes where nothing is said.
const ROOM: u64 = 65_536;

// A file of this name, which holds these bytes.
#[derive(Drop)]
struct Stored {
    name: Text,
    bytes: Text,
}

// What is said of one object: the calls that fail, and how many bytes it takes or gives.
#[derive(Drop)]
struct Calls {
    failing: Vec<u64>,
    size: u64,
}

impl Calls {
    fn new(alloc: Global, size: u64) -> Calls {
        Calls {
            failing: Vec::new(alloc),
            size,
        }
    }

    // The calls that fail, which are used up.
    fn failing(&mut self, alloc: Global) -> NumberList {
        NumberList::from_vec(mem::replace(&mut self.failing, Vec::new(alloc)))
    }

    fn sink(&mut self, alloc: Global) -> Result<MemorySink, AllocError> {
        let size = mem::replace(&mut self.size, ROOM);
        MemorySink::new(alloc, size, self.failing(alloc))
    }
}

// What came of a run: its status, its objects as it left them, and how many bytes standard input gave where it was
// called.
#[derive(Drop)]
struct Outcome {
    status: u8,
    files: WatchedFiles<MemoryFiles>,
    given: Option<u64>,
    output: MemorySink,
    errors: MemorySink,
}

/// What the next run finds.
#[derive(Drop)]
pub struct Stage {
    // The later of two files of one name is the one that is there.
    stored: Vec<Stored>,
    // What is being said: the content of the file of this name, or of standard input.
    name: Option<Text>,
    content: Vec<u8>,
    input: Vec<u8>,
    input_calls: Calls,
    files_calls: Calls,
    output_calls: Calls,
    errors_calls: Calls,
}

impl Stage {
    /// No files, an empty standard input, and no call that fails.
    pub fn new(alloc: Global) -> Stage {
        Stage {
            stored: Vec::new(alloc),
            name: None,
            content: Vec::new(alloc),
            input: Vec::new(alloc),
            input_calls: Calls::new(alloc, ROOM),
            files_calls: Calls::new(alloc, ROOM),
            output_calls: Calls::new(alloc, ROOM),
            errors_calls: Calls::new(alloc, ROOM),
        }
    }

    // Puts what was said of a content in its place.
    fn store(&mut self, alloc: Global) -> Result<(), AllocError> {
        let content = mem::replace(&mut self.content, Vec::new(alloc));
        match mem::replace(&mut self.name, None) {
            Some(name) => {
                let bytes = Text::from_vec(content);
                self.stored.push(Stored { name, bytes })?;
            }
            None => self.input.extend_from_slice(content.as_slice())?,
        }
        Ok(())
    }

    // The lines of a program, each the sum of the two before it.
    fn add_sums(&mut self, alloc: Global, first: u64, last: u64) -> Result<(), AllocError> {
        for line in first..last.saturating_add(1) {
            let (one, other) = (line.wrapping_sub(2), line.wrapping_sub(1));
            let text = format!(in alloc; "%{line} = add i32 %{one}, %{other}\n")?;
            self.content.extend_from_slice(text.as_bytes())?;
        }
        Ok(())
    }

    // The text for each number from the first up to the last, which it has in place of each `#`.
    fn add_each(
        &mut self,
        alloc: Global,
        first: u64,
        last: u64,
        text: &[u8],
    ) -> Result<(), AllocError> {
        for number in first..last {
            let digits = format!(in alloc; "{number}")?;
            for byte in text {
                if *byte == b'#' {
                    self.content.extend_from_slice(digits.as_bytes())?;
                } else {
                    self.content.push(*byte)?;
                }
            }
        }
        Ok(())
    }

    // The text so many times.
    fn add_times(&mut self, count: u64, text: &[u8]) -> Result<(), AllocError> {
        for _ in 0..count {
            self.content.extend_from_slice(text)?;
        }
        Ok(())
    }

    // How many bytes an object takes or gives.
    fn set_size(&mut self, object: &[u8], size: u64) {
        match object {
            b"input" => self.input_calls.size = size,
            b"output" => self.output_calls.size = size,
            b"errors" => self.errors_calls.size = size,
            _ => {}
        }
    }

    // Which calls of an object fail.
    fn set_failing(&mut self, object: &[u8], failing: Vec<u64>) {
        match object {
            b"input" => self.input_calls.failing = failing,
            b"files" => self.files_calls.failing = failing,
            b"output" => self.output_calls.failing = failing,
            b"errors" => self.errors_calls.failing = failing,
            _ => {}
        }
    }

    // Takes a line that says more of a content.
    fn take_content(&mut self, alloc: Global, key: &[u8], rest: &[u8]) -> Result<(), AllocError> {
        match key {
            b"+" => self.add_times(1, unescaped(alloc, rest)?.as_slice()),
            b"|" => {
                self.add_times(1, unescaped(alloc, rest)?.as_slice())?;
                self.add_times(1, b"\n")
            }
            b"=" => self.add_times(1, hex_of(alloc, rest)?.as_slice()),
            b"*" => {
                let (count, text) = parts(rest);
                let text = unescaped(alloc, text)?;
                self.add_times(number_of(count), text.as_slice())
            }
            b"each" => {
                let (first, rest) = parts(rest);
                let (last, text) = parts(rest);
                let text = unescaped(alloc, text)?;
                self.add_each(alloc, number_of(first), number_of(last), text.as_slice())
            }
            b"sums" => {
                let (first, last) = parts(rest);
                self.add_sums(alloc, number_of(first), number_of(last))
            }
            _ => Ok(()),
        }
    }

    // Takes a line that says how the objects behave.
    fn take_calls(&mut self, alloc: Global, key: &[u8], rest: &[u8]) -> Result<(), AllocError> {
        let (object, numbers) = parts(rest);
        match key {
            b"piece" => self.set_size(b"input", number_of(rest)),
            b"room" => self.set_size(object, number_of(numbers)),
            b"fails" => self.set_failing(object, numbers_of(alloc, numbers)?),
            _ => {}
        }
        Ok(())
    }

    /// Takes a line that says something of the next run.
    pub fn take(&mut self, alloc: Global, key: &[u8], rest: &[u8]) -> Result<(), AllocError> {
        match key {
            b"file" => {
                self.store(alloc)?;
                self.name = Some(word_of(alloc, rest)?);
                Ok(())
            }
            b"input" => self.store(alloc),
            b"clear" => {
                self.store(alloc)?;
                self.stored.clear();
                Ok(())
            }
            b"piece" | b"room" | b"fails" => self.take_calls(alloc, key, rest),
            _ => self.take_content(alloc, key, rest),
        }
    }

    // The files, of which the calls fail that were said to.
    fn files(&mut self, alloc: Global) -> Result<WatchedFiles<MemoryFiles>, AllocError> {
        let mut files = MemoryFiles::new(alloc, self.files_calls.failing(alloc));
        for stored in self.stored.as_slice() {
            let name = Text::from_slice(alloc, stored.name.bytes())?;
            files.put(name, Text::from_slice(alloc, stored.bytes.bytes())?)?;
        }
        Ok(WatchedFiles::new(alloc, files))
    }

    // Standard input, which is used up.
    fn source(&mut self, alloc: Global) -> WatchedSource<MemorySource> {
        let bytes = Text::from_vec(mem::replace(&mut self.input, Vec::new(alloc)));
        let failing = self.input_calls.failing(alloc);
        let piece = mem::replace(&mut self.input_calls.size, ROOM);
        WatchedSource::new(MemorySource::new(bytes, failing), piece)
    }

    // Keeps the files that a run wrote, and tells them.
    fn keep(
        &mut self,
        alloc: Global,
        files: &WatchedFiles<MemoryFiles>,
        told: &mut Vec<u8>,
    ) -> Result<(), AllocError> {
        for name in files.written() {
            if let Some(bytes) = files.inner().get(name) {
                add(told, "wrote ")?;
                add_word(told, name.bytes())?;
                add(told, "\n")?;
                add_content(told, bytes.bytes())?;
                let name = Text::from_slice(alloc, name.bytes())?;
                let bytes = Text::from_slice(alloc, bytes.bytes())?;
                self.stored.push(Stored { name, bytes })?;
            }
        }
        Ok(())
    }

    // Runs the words over all this.
    fn outcome(&mut self, alloc: Global, words: &[Text]) -> Result<Outcome, AllocError> {
        let mut files = self.files(alloc)?;
        let mut input = self.source(alloc);
        let mut output = self.output_calls.sink(alloc)?;
        let mut errors = self.errors_calls.sink(alloc)?;
        let Report { status, .. } = run_tool(
            alloc,
            words,
            &mut files,
            &mut input,
            &mut output,
            &mut errors,
        );
        Ok(Outcome {
            status,
            files,
            given: input.given(),
            output,
            errors,
        })
    }

    /// Runs the words of this line over all this, and tells what came of it.
    pub fn run(
        &mut self,
        alloc: Global,
        line: &[u8],
        told: &mut Vec<u8>,
    ) -> Result<(), AllocError> {
        self.store(alloc)?;
        let words = words_of(alloc, line)?;
        let outcome = self.outcome(alloc, words.as_slice())?;
        add_status(told, alloc, line, outcome.status)?;
        add_names(told, outcome.files.read())?;
        add_given(told, alloc, outcome.given)?;
        self.keep(alloc, &outcome.files, told)?;
        add_stream(told, "output", outcome.output.taken())?;
        add_stream(told, "errors", outcome.errors.taken())
    }
}

// Adds the words of a run and its status.
fn add_status(
    told: &mut Vec<u8>,
    alloc: Global,
    line: &[u8],
    status: u8,
) -> Result<(), AllocError> {
    add(told, "> ")?;
    told.extend_from_slice(line)?;
    add(told, "\nstatus ")?;
    add_number(told, alloc, u64::from(status))?;
    add(told, "\n")
}

// Adds how many bytes standard input gave, where it was called.
fn add_given(told: &mut Vec<u8>, alloc: Global, given: Option<u64>) -> Result<(), AllocError> {
    let Some(given) = given else {
        return Ok(());
    };
    add(told, "input ")?;
    add_number(told, alloc, given)?;
    add(told, "\n")
}
