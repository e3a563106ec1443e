//! The program `ir-tools`: the words of the command line, the process's own streams and files, and the status.
//!
//! It stands on `tool_cli`, whose call `run_tool` it makes: the contract of that call is what the program promises,
//! and that of `end_without_words` is what it promises where memory runs out before there are words. That the
//! process's objects meet the contracts of their traits is trusted.
//!
//! At the top of the repository:
//!
//! ```text
//! $ ./ir-tools lli examples/hello.ll
//! 1 squared is 1
//! 2 squared is 4
//! 3 squared is 9
//! ```
#![tactic(auto)]

use ir_base::{HostFiles, StdSink, StdSource, Text};
use std::alloc::{AllocError, Global};
use std::env::{Env, FillError};
use std::process::ExitCode;
use tool_cli::{end_without_words, run_tool};

// The most bytes that the host passes in one word, and a zero byte behind it.
const LONGEST_WORD: usize = 131_072;

/// The words behind the program's own name, which may be any bytes. One that is longer than any word of the host's
/// has no room.
fn words_of(rt: &impl Env, alloc: Global) -> Result<Vec<Text>, AllocError> {
    let mut words = Vec::new(alloc);
    let mut room = vec![in alloc; 0u8; LONGEST_WORD]?;
    for index in 1..usize::MAX {
        match rt.arg(index, &mut room) {
            Ok(length) => words.push(Text::from_slice(alloc, &room[..length])?)?,
            Err(FillError::NotPresent) => break,
            Err(FillError::TooLong) => return Err(AllocError),
        }
    }
    Ok(words)
}

fn main(rt: HostRuntime) -> ExitCode {
    let mut errors = StdSink::new(rt.stderr());
    let report = match words_of(&rt, rt.alloc()) {
        Ok(words) => run_tool(
            rt.alloc(),
            &words,
            &mut HostFiles::new(&rt),
            &mut StdSource::new(rt.stdin()),
            &mut StdSink::new(rt.stdout()),
            &mut errors,
        ),
        Err(_) => end_without_words(&mut errors),
    };
    ExitCode::from(report.status)
}
