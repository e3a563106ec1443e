//! Whether a module is valid.

use crate::faults::print_fault;
use crate::reading::{LARGEST, read_module};
use crate::repeating::repeated;
use path_verify::verify;
use std::io;

/// Prints whether the module is valid of the text that these lines stand for.
pub(crate) fn print_validity(rt: &HostRuntime, lines: &[u8]) -> io::Result<()> {
    let text = repeated(rt.alloc(), lines)?;
    if text.len() > LARGEST {
        return println!(rt; "too large");
    }
    let Some(arena) = read_module(rt.alloc(), text.as_slice()) else {
        return println!(rt; "no module");
    };
    match verify(rt.alloc(), arena) {
        Ok(_) => println!(rt; "ok"),
        Err(fault) => print_fault(rt, &fault),
    }
}
