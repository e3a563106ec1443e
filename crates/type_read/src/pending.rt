//! Definitions of structs that were read and not given to the table yet.
ghost use Rattle.std.specs.Prelude.{◌+◌, ◌-◌, ◌<◌, ◌^◌, length};
ghost use Rattle.type_table.specs.Types.{IsKnownBody};
ghost use Rattle.type_read.specs.Listed.{IsUndefined, ReadsOne};
ghost use Rattle.type_read.specs.Pending.{Defines, Gives, IsCounted, IsPending, LacksMemory, PutsBody, held};

use crate::listing::{are_within, define_struct};
use module_arena::Arena;
use record_read::{BitcodeFault, RecordReader};
use record_table::TYPES_BLOCK;
use std::alloc::Global;
use std::mem;
use type_table::{StructBody, StructId, TypeFault};

/// Bodies that were read and not given to their structs yet, since to give many at once takes no longer than to give one.
/// Their records stand one behind another, and none breaks a rule but, maybe, 7.
#[derive(Drop)]
pub(crate) struct Pending {
    /// The number of the first struct.
    pub first: u32,
    /// How many records stand before that of the first struct.
    pub at: u64,
    pub bodies: Vec<StructBody>,
}

/// Tells want of memory alone: of every other fault the caller tells.
fn lacks_memory(fault: TypeFault) -> Result<(), BitcodeFault>
    ensures { LacksMemory fault result }
{
    match fault {
        TypeFault::Memory => Err(BitcodeFault::Memory),
        TypeFault::Duplicate
        | TypeFault::SelfContaining
        | TypeFault::TooDeep
        | TypeFault::TooLarge => Ok(()),
    }
}

/// Gives a struct its body, and tells whether all types fit then.
fn is_defined(arena: &mut Arena, id: StructId, body: StructBody) -> Result<bool, BitcodeFault>
    requires undefined { IsUndefined arena.old id }
    requires fields { IsKnownBody arena.old.table body }
    ensures { Defines id body arena.old result arena.new }
{
    match arena.define_struct(id, body) {
        Ok(()) => {
            are_within(arena);
            Ok(true)
        }
        Err(fault) => {
            lacks_memory(fault)?;
            Ok(false)
        }
    }
}

/// What holds of every reader: its records are counted.
pub(crate) fn is_counted(reader: &RecordReader<'_>)
    ensures { reader.now.at < 2 ^ 64 }
{
    let _at = reader.at();
}

/// Gives structs from the first on these bodies, one after another. The first behind which not all types fit broke
/// rule 7 of its record: that of the first body stands behind so many.
fn give_each(
    arena: &mut Arena,
    first: u32,
    at: u64,
    given: Vec<StructBody>,
) -> Result<(), BitcodeFault>
    requires pending { IsPending arena.old (record { first = first; at = at; bodies = given }) }
    requires few { at + length given.items < 2 ^ 64 }
    ensures { Gives arena.old (record { first = first; at = at; bodies = given }) result arena.new }
{
    let mut number = first;
    let mut index = at;
    let mut rest = given.into_iter();
    'bodies: loop {
        match rest.next() {
            Some(body) => {
                are_within(arena);
                let fits = is_defined(arena, StructId::new(number), body)?;
                if !fits {
                    return Err(BitcodeFault::BadRecord {
                        block: TYPES_BLOCK,
                        index,
                        rule: 7,
                    });
                }
                number += 1;
                index += 1;
            }
            None => return Ok(()),
        }
    }
}

/// Gives the structs what pends: at once where all types fit behind each, and else one after another.
pub(crate) fn give(
    arena: &mut Arena,
    alloc: Global,
    pending: &mut Pending,
) -> Result<(), BitcodeFault>
    requires pending { IsPending arena.old pending.old }
    requires few { pending.old.at + length pending.old.bodies.items < 2 ^ 64 }
    ensures { Gives arena.old pending.old result arena.new }
{
    if pending.bodies.is_empty() {
        return Ok(());
    }
    let are_given = arena.define_structs(StructId::new(pending.first), &mut pending.bodies)?;
    if are_given {
        return Ok(());
    }
    let given = mem::replace(&mut pending.bodies, Vec::new(alloc));
    give_each(arena, pending.first, pending.at, given)
}

/// Lets one body more pend, where its record breaks no rule but, maybe, 7. Else all that pends is given, and the record
/// refused.
pub(crate) fn put_body(
    reader: &mut RecordReader<'_>,
    alloc: Global,
    arena: &mut Arena,
    pending: &mut Pending,
    number: u32,
    body: StructBody,
) -> Result<(), BitcodeFault>
    requires given { 0 < reader.old.at }
    requires undefined { IsUndefined (held arena.old pending.old) number }
    requires fields { IsKnownBody arena.old.table body }
    requires pending { IsPending arena.old pending.old }
    requires counted { IsCounted pending.old number (reader.old.at - 1) }
    ensures reads { ReadsOne reader.old result reader.new }
    ensures puts { PutsBody arena.old pending.old number body reader.old result arena.new pending.new }
{
    is_counted(reader);
    if reader.is_broken() {
        give(arena, alloc, pending)?;
        define_struct(reader, arena, StructId::new(number), body)?;
        return reader.finish(TYPES_BLOCK);
    }
    match reader.finish(TYPES_BLOCK) {
        Ok(()) => {
            pending.bodies.push(body)?;
            Ok(())
        }
        Err(fault) => {
            give(arena, alloc, pending)?;
            Err(fault)
        }
    }
}
