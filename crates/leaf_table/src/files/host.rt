//! The host's files and streams.
use crate::files::outcome::{Outcome, bytes_of, push_outcome};
use crate::word::{number, word};
use ir_base::{Files, HostFiles, StdSink, StdSource, read_all, write_all};
use std::alloc::{AllocError, Global};
use std::fs::File;
use std::{fs, io, rt};

/// What the line's call of the host gives. None where it is no such call.
pub fn answer<R: rt::Files>(rt: &R, alloc: Global, line: &str) -> Option<Result<Outcome, Outcome>> {
    match word(line, 0) {
        "host_read_file" => Some(read_file(rt, alloc, line)),
        "host_write_file" => Some(write_file(rt, alloc, line)),
        "stream_write" => Some(write_stream(rt, line)),
        "folder" => Some(done("made", fs::create_dir_all(rt, word(line, 1)))),
        "remove" => Some(done("removed", fs::remove_file(rt, word(line, 1)))),
        "remove_folder" => Some(done("removed", fs::remove_dir(rt, word(line, 1)))),
        _ => None,
    }
}

fn read_file<R: rt::Files>(rt: &R, alloc: Global, line: &str) -> Result<Outcome, Outcome> {
    let name = bytes_of(alloc, word(line, 1))?;
    let bytes = HostFiles::new(rt).read_file(alloc, &name, number(word(line, 2)))?;
    Ok(Outcome::Bytes(bytes))
}

fn write_file<R: rt::Files>(rt: &R, alloc: Global, line: &str) -> Result<Outcome, Outcome> {
    let name = bytes_of(alloc, word(line, 1))?;
    let bytes = bytes_of(alloc, word(line, 2))?;
    HostFiles::new(rt).write_file(alloc, &name, &bytes)?;
    Ok(Outcome::Word("done"))
}

fn done(word: &'static str, outcome: io::Result<()>) -> Result<Outcome, Outcome> {
    outcome?;
    Ok(Outcome::Word(word))
}

// Makes the file, and writes two words to it.
fn write_stream<R: rt::Files>(rt: &R, line: &str) -> Result<Outcome, Outcome> {
    let mut sink = StdSink::new(File::create(rt, word(line, 1))?);
    write_all(&mut sink, word(line, 2).as_bytes())?;
    write_all(&mut sink, word(line, 3).as_bytes())?;
    Ok(Outcome::Word("done"))
}

/// Adds what two readings of the file give, the second from where the first ended on, each up to
/// the limit.
pub fn push_stream<R: rt::Files>(
    text: &mut String,
    rt: &R,
    alloc: Global,
    line: &str,
) -> Result<(), AllocError> {
    let Ok(file) = File::open(rt, word(line, 1)) else {
        return text.push_str("no such file");
    };
    let mut source = StdSource::new(file);
    let limit = number(word(line, 2)) as usize;
    let first = read_all(alloc, &mut source, limit);
    push_outcome(text, first.map(Outcome::Bytes).map_err(Outcome::from))?;
    text.push_str(" and ")?;
    let second = read_all(alloc, &mut source, limit);
    push_outcome(text, second.map(Outcome::Bytes).map_err(Outcome::from))
}
