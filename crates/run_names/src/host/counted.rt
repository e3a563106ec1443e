//! The length of a string (C, "The strlen function").
ghost use Rattle.std.specs.Prelude.{◌≡◌, ◌-◌, ◌≤◌, take, vec_len};
ghost use Rattle.ir_memory.specs.Given.{IsKnown};
ghost use Rattle.run_rules.specs.Access.{string_at};
ghost use Rattle.run_rules.specs.Host.{counts};
ghost use Rattle.run_names.specs.Host.Answers.{Writes};

use crate::host::HostAnswer;
use crate::host::answer::{one_leaf, refused};
use crate::values::push_string;
use ir_eval::{Pointer, Scalar};
use ir_memory::Memory;
use std::alloc::AllocError;

/// Takes back what stands behind so many bytes, and tells how many that were.
fn take_back(written: &mut Vec<u8>, before: usize) -> usize
    requires { before ≤ vec_len written.old }
    ensures items { written.new.items ≡ take before written.old.items }
    ensures count { result ≡ vec_len written.old - before }
{
    let count = written.len() - before;
    written.truncate(before);
    count
}

/// The count of bytes of the string at a pointer, as `strlen` gives it. They stand behind what is written while they are counted.
pub fn string_length(
    memory: &Memory,
    string: Pointer,
    written: &mut Vec<u8>,
) -> Result<HostAnswer, AllocError>
    requires { IsKnown memory.now.list string }
    ensures { Writes (counts memory.now (string_at memory.now string)) memory.now written.old.items written.new.items result }
{
    let before = written.len();
    match push_string(memory, string, None, written) {
        Ok(()) => {
            let count = take_back(written, before);
            Ok(HostAnswer::Gives(one_leaf(Scalar::Int(count as u128))))
        }
        Err(fault) => refused(fault),
    }
}
