//! Constants of an arena.
ghost use Rattle.std.specs.Prelude.{length};
ghost use Rattle.module_arena.specs.Known.{counts, KnowsConst};

use crate::answer::{Answer, Refusal};
use crate::known::entry_id;
use crate::word::word;
use module_arena::{Arena, Const};

fn add(arena: &mut Arena, constant: Const) -> Result<Answer, Refusal>
    requires { KnowsConst (length arena.old.table.types) (counts arena.old) (length arena.old.constants) constant }
{
    let id = arena.add_const(constant)?;
    Ok(Answer::Numbered("constant", id.number()))
}

/// Adds the constant of a line.
pub fn add_constant(arena: &mut Arena, line: &str, numbers: &[u64]) -> Result<Answer, Refusal> {
    match (word(line, 0), numbers) {
        ("number", [number]) => add(arena, Const::Integer(u128::from(*number))),
        ("null", []) => add(arena, Const::Null),
        ("address", [_, number]) => {
            let id = entry_id(arena, word(line, 1), *number)?;
            add(arena, Const::Address(id))
        }
        _ => Err(Refusal::NoCall),
    }
}
