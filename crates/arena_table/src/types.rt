//! Types and structs of an arena.
//!
//! `int WIDTH`, `ptr`, `void`, `array LENGTH TYPE`, `plain TYPE..`, `packed TYPE..` and
//! `named STRUCT` add a type. `fields STRUCT TYPE..` or `body`, `tight` for a packed struct, and
//! `opaque STRUCT` give a struct its body. Types and structs are called by their numbers.
ghost use Rattle.std.specs.Prelude.{IfOk};
ghost use Rattle.type_table.specs.Types.{IsKnown, IsKnownBody};

use crate::answer::{Answer, Refusal};
use crate::known::{struct_id, type_id, type_ids};
use crate::word::name;
use ir_tables::WIDEST;
use module_arena::{Arena, COUNT_LIMIT};
use std::alloc::Global;
use type_table::{IrType, StructBody};

// The type of a line, where the line has one.
fn read_type(alloc: Global, arena: &Arena, call: &str, numbers: &[u64]) -> Result<IrType, Refusal>
    ensures { IfOk result (IsKnown arena.now.table) }
{
    match (call, numbers) {
        ("int", [width]) if *width >= 1 && *width <= WIDEST as u64 => {
            Ok(IrType::Int(*width as u8))
        }
        ("ptr", []) => Ok(IrType::Ptr),
        ("void", []) => Ok(IrType::Void),
        ("array", [length, element]) => Ok(IrType::Array(*length, type_id(arena, *element)?)),
        ("named", [id]) => Ok(IrType::Named(struct_id(arena, *id)?)),
        ("plain", _) => Ok(IrType::Struct(false, type_ids(alloc, arena, numbers)?)),
        ("packed", _) => Ok(IrType::Struct(true, type_ids(alloc, arena, numbers)?)),
        _ => Err(Refusal::NoCall),
    }
}

/// Adds the type of a line, and gives its number.
pub fn add_type(
    alloc: Global,
    arena: &mut Arena,
    call: &str,
    numbers: &[u64],
) -> Result<u64, Refusal> {
    let ty = read_type(alloc, arena, call, numbers)?;
    Ok(arena.add_type(ty)?.number())
}

/// Names a struct that has no body, and gives its number.
pub fn name_struct(alloc: Global, arena: &mut Arena, word: &str) -> Result<u64, Refusal> {
    if arena.types().struct_count() >= COUNT_LIMIT {
        return Err(Refusal::NoCall);
    }
    let id = arena.name_struct(name(alloc, word)?)?;
    Ok(u64::from(id.number()))
}

// Gives a struct its body.
fn define(arena: &mut Arena, number: u64, body: StructBody) -> Result<Answer, Refusal>
    requires { IsKnownBody arena.old.table body }
{
    let id = struct_id(arena, number)?;
    if arena.types().struct_body(id).is_some() {
        return Err(Refusal::NoCall);
    }
    arena.define_struct(id, body)?;
    Ok(Answer::Said("done"))
}

/// Gives a struct the body of the line.
pub fn define_struct(
    alloc: Global,
    arena: &mut Arena,
    call: &str,
    numbers: &[u64],
) -> Result<Answer, Refusal> {
    let [number, fields @ ..] = numbers else {
        return Err(Refusal::NoCall);
    };
    let fields = type_ids(alloc, arena, fields)?;
    match call {
        "opaque" => define(arena, *number, StructBody::Opaque),
        "tight" => define(arena, *number, StructBody::Packed(fields)),
        _ => define(arena, *number, StructBody::Plain(fields)),
    }
}
