//! Reads and writes streams of the container that its lines name, and prints what each comes to.
//!
//! It stands on `bit_stream`, `bit_tree` and `bit_dump`, and serves to show them. A line is a word and the bytes of a stream,
//! hexadecimal: `read` tells the entries with all that a reader tells of them, `sums` the entries outside BLOCKINFO
//! shortly, `tree` those that are read at once, `judge` the verdict, and `fields` two numbers; `write` names what is
//! written. `whole` tells the stream as `dump` writes it into a sink in memory, `counts` its summary, and `short` tells it all
//! to a sink with room for 100 bytes, whose second call fails. Nothing is promised of the printed text.
//!
//! In the crate's folder:
//!
//! ```text
//! $ printf 'read 4243c0de\nread 4243c0de350c0000\n' | rt run
//! read whole
//! read Truncated 64
//! ```
#![tactic(auto)]

mod dumped;
mod hex;
mod tell;
mod whole;
mod written;

use hex::bytes_of;
use std::alloc::{AllocError, Global};
use std::io;

/// What a line comes to.
fn answer(alloc: Global, word: &str, rest: &str) -> Result<String, AllocError> {
    if word == "write" {
        return written::answer(alloc, rest);
    }
    let bytes = bytes_of(alloc, rest)?;
    if bytes.len() > 1 << 24 {
        return String::from_str(alloc, "too long");
    }
    match word {
        "read" => tell::all(alloc, &bytes),
        "sums" => tell::sums(alloc, &bytes),
        "fields" => tell::fields(alloc, &bytes),
        "tree" => whole::tree(alloc, &bytes),
        "judge" => whole::verdict(alloc, &bytes),
        _ => String::from_str(alloc, "no such word"),
    }
}

fn main(rt: HostRuntime) -> io::Result<()> {
    for line in rt.lines(rt.alloc()) {
        let line = line?;
        let (word, rest) = line.as_str().split_once(' ').unwrap_or((line.as_str(), ""));
        if matches!(word, "whole" | "counts" | "short") {
            let bytes = bytes_of(rt.alloc(), rest)?;
            let answer = dumped::answer(rt.alloc(), word, &bytes)?;
            print!(rt; "{word}{answer}")?;
        } else {
            let answer = answer(rt.alloc(), word, rest)?;
            println!(rt; "{word} {answer}")?;
        }
    }
    Ok(())
}
