//! What a dump writes.

use crate::tell::kind_word;
use bit_dump::{DumpFault, dump};
use ir_base::{MemorySink, NumberList};
use std::alloc::{AllocError, Global};

fn put_fault(out: &mut String, fault: DumpFault) -> Result<(), AllocError> {
    match fault {
        DumpFault::Bit(fault) => {
            let word = kind_word(fault.kind);
            let bit = fault.bit;
            write!(out, " {word} {bit}")
        }
        DumpFault::WriteFault => out.push_str(" WriteFault"),
        DumpFault::Memory => out.push_str(" Memory"),
    }
}

/// What is told behind the word: the fault, if there is one, and in the lines behind it what the sink has taken.
pub fn answer(alloc: Global, word: &str, bytes: &[u8]) -> Result<String, AllocError> {
    let mut out = String::new(alloc);
    if bytes.len() > 1 << 24 {
        return Ok(out);
    }
    let mut fails = NumberList::new(alloc);
    let mut room = 1 << 20;
    if word == "short" {
        fails.push(2)?;
        room = 100;
    }
    let mut sink = MemorySink::new(alloc, room, fails)?;
    if let Err(fault) = dump(alloc, bytes, word != "counts", &mut sink) {
        put_fault(&mut out, fault)?;
    }
    out.push_str("\n")?;
    for byte in sink.taken() {
        out.push(char::from(*byte))?;
    }
    if word == "short" {
        out.push_str("\n")?;
    }
    Ok(out)
}
