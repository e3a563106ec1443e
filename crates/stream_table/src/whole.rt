//! What is read of a whole stream at once.
ghost use Rattle.std.specs.Prelude.{◌≤◌, length};
ghost use Rattle.bit_stream.specs.declared.reader.TheConstants.{LARGEST_STREAM};

use crate::tell::{put_bytes, put_numbers, put_stop};
use bit_stream::Entry;
use bit_tree::{HeldEntry, judge, read_stream};
use std::alloc::{AllocError, Global};

fn put_held(out: &mut String, held: &HeldEntry) -> Result<(), AllocError> {
    match held.entry {
        Entry::Block(id) => write!(out, "block {id}; "),
        Entry::EndBlock => out.push_str("end; "),
        Entry::Record(code) => {
            write!(out, "record {code}:")?;
            put_numbers(out, &held.operands)?;
            out.push_str(" blob")?;
            put_bytes(out, &held.blob)?;
            out.push_str("; ")
        }
        Entry::End => out.push_str("whole"),
    }
}

/// The entries, or the fault.
pub fn tree(alloc: Global, bytes: &[u8]) -> Result<String, AllocError>
    requires { length bytes.now ≤ LARGEST_STREAM }
{
    let mut out = String::new(alloc);
    match read_stream(alloc, bytes) {
        Ok(entries) => {
            for held in entries.as_slice() {
                put_held(&mut out, held)?;
            }
        }
        Err(fault) => put_stop(&mut out, fault)?,
    }
    Ok(out)
}

/// Whether it is a tree, or the fault.
pub fn verdict(alloc: Global, bytes: &[u8]) -> Result<String, AllocError>
    requires { length bytes.now ≤ LARGEST_STREAM }
{
    let mut out = String::new(alloc);
    match judge(alloc, bytes) {
        Ok(()) => out.push_str("whole")?,
        Err(fault) => put_stop(&mut out, fault)?,
    }
    Ok(out)
}
