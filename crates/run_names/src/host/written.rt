//! Bytes and lines (C, "Character input/output functions").
ghost use Rattle.std.specs.Prelude.{◌≡◌, ℕ, List, [], ◌∷◌, ◌++◌, Ok};
ghost use Rattle.ir_eval.specs.declared.value.Scalar.TheVariants.{Int};
ghost use Rattle.ir_memory.specs.Given.{IsKnown};
ghost use Rattle.ir_memory.specs.Memory.{Blocks};
ghost use Rattle.module_arena.specs.declared.host.HostRow.TheVariants.{Putchar};
ghost use Rattle.run_rules.specs.Access.{string_at};
ghost use Rattle.run_rules.specs.Host.{done, puts_line};
ghost use Rattle.run_names.specs.Host.Answers.{Writes};

use crate::host::HostAnswer;
use crate::host::answer::{one_leaf, refused};
use crate::values::push_string;
use ir_eval::{Pointer, Scalar};
use ir_memory::Memory;
use std::alloc::AllocError;

/// Writes the low byte of a number and gives it, as `putchar` does.
pub fn put_byte(number: u128, written: &mut Vec<u8>) -> Result<HostAnswer, AllocError>
    ensures { (m : Blocks) → Writes (done Putchar (Int number ∷ []) m) m written.old.items written.new.items result }
{
    let byte = (number % 256) as u8;
    written.push(byte)?;
    Ok(HostAnswer::Gives(one_leaf(Scalar::Int(u128::from(byte)))))
}

/// Writes the line feed behind bytes that were written.
fn end_line(written: &mut Vec<u8>) -> Result<HostAnswer, AllocError>
    ensures { (m : Blocks) (before bytes : List ℕ) → written.old.items ≡ before ++ bytes → Writes (puts_line m (Ok bytes)) m before written.new.items result }
{
    written.push(b'\n')?;
    Ok(HostAnswer::Gives(one_leaf(Scalar::Int(0))))
}

/// Writes the string at a pointer and a line feed, and gives 0, as `puts` does. Nothing is written where the string is undefined.
pub fn put_line(
    memory: &Memory,
    string: Pointer,
    written: &mut Vec<u8>,
) -> Result<HostAnswer, AllocError>
    requires { IsKnown memory.now.list string }
    ensures { Writes (puts_line memory.now (string_at memory.now string)) memory.now written.old.items written.new.items result }
{
    match push_string(memory, string, None, written) {
        Ok(()) => end_line(written),
        Err(fault) => refused(fault),
    }
}
