//! Canonical texts.

use crate::reading::{LARGEST, read_module};
use ir_base::{MemorySink, NumberList};
use ir_printer::gathered::Gathered;
use ir_printer::put_module;
use std::io;
use std::io::Write;

/// Prints the canonical text of a text.
fn print_text(rt: &HostRuntime, text: &[u8]) -> io::Result<()> {
    if text.len() > LARGEST {
        return println!(rt; "too large");
    }
    let Some(arena) = read_module(rt.alloc(), text) else {
        return println!(rt; "no module");
    };
    let no_failures = NumberList::from_vec(Vec::new(rt.alloc()));
    let Ok(mut sink) = MemorySink::new(rt.alloc(), LARGEST as u64, no_failures) else {
        return println!(rt; "out of memory");
    };
    let mut out = Gathered::new();
    put_module(&mut out, &mut sink, &arena);
    match out.finish(&mut sink) {
        Ok(()) => rt.stdout().write_all(sink.taken()),
        Err(_) => println!(rt; "too large"),
    }
}

/// Prints the canonical text of a text, or that it is no module, and a line that ends it.
pub(crate) fn print_canonical(rt: &HostRuntime, text: &[u8]) -> io::Result<()> {
    print_text(rt, text)?;
    println!(rt; "====")
}
