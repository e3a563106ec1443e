//! `printf` (C, "The fprintf function").
ghost use Rattle.std.specs.Prelude.{◌+◌, length, map};
ghost use Rattle.run_names.specs.Host.Answers.{Writes};
ghost use Rattle.run_rules.specs.Printing.{printed, prints, written_from};
ghost use Rattle.run_actions.specs.Hosts.Printing.{AreOf, ArePrinted, shape_from};

use crate::hosts::kinds::ArgumentKinds;
use crate::hosts::pattern::{Format, put_pieces};
use ir_eval::Scalar;
use ir_memory::Memory;
use ir_tables::UndefinedKind;
use run_names::host::{HostAnswer, one_leaf, refused};
use run_names::values::{plain_string, push_string};
use std::alloc::{AllocError, Global};

/// Writes a pattern that was read, whose arguments are there: the result is the count of bytes modulo 2^32. Nothing is written where
/// anything is undefined.
#[inline(always)]
fn print_format(
    alloc: Global,
    memory: &Memory,
    format: &Format<'_>,
    written: &mut Vec<u8>,
) -> Result<HostAnswer, AllocError>
    requires { AreOf (length memory.now.list) format.now.kinds.now format.now.arguments.now }
    ensures { Writes (printed memory.now (written_from memory.now format.now.pattern.now (length format.now.pattern.now + 1) 0 (map shape_from format.now.kinds.now) format.now.arguments.now)) memory.now written.old.items written.new.items result }
{
    let before = written.len();
    match put_pieces(alloc, memory, format, written) {
        Ok(()) => {
            let count = (written.len() - before) as u128 % 0x1_0000_0000;
            Ok(HostAnswer::Gives(one_leaf(Scalar::Int(count))))
        }
        Err(fault) => {
            written.truncate(before);
            refused(fault)
        }
    }
}

/// `printf`: the pattern is read whole before any conversion is judged.
pub(crate) fn print(
    alloc: Global,
    memory: &Memory,
    kinds: &ArgumentKinds<'_>,
    arguments: &[Scalar],
    written: &mut Vec<u8>,
) -> Result<HostAnswer, AllocError>
    requires { ArePrinted (length memory.now.list) kinds.now arguments.now }
    ensures { Writes (prints (map shape_from kinds.now) arguments.now memory.now) memory.now written.old.items written.new.items result }
{
    let Some(Scalar::Ptr(string)) = arguments.first() else {
        return Ok(HostAnswer::Fails(UndefinedKind::PoisonArgument));
    };
    let others = kinds.behind(1);
    if let Some(pattern) = plain_string(memory, *string) {
        let format = Format {
            pattern,
            kinds: &others,
            arguments: &arguments[1..],
        };
        return print_format(alloc, memory, &format, written);
    }
    let mut pattern = Vec::with_capacity(alloc, 64)?;
    if let Err(fault) = push_string(memory, *string, None, &mut pattern) {
        return refused(fault);
    }
    let format = Format {
        pattern: &pattern,
        kinds: &others,
        arguments: &arguments[1..],
    };
    print_format(alloc, memory, &format, written)
}
