//! What is set once: texts, initialisers, targets and bodies.
ghost use Rattle.std.specs.Prelude.{length};
ghost use Rattle.module_arena.specs.Known.{KnowsBody};

use crate::answer::{Answer, Refusal};
use crate::arena::body::{read_parts, small_body, sum_body};
use crate::arena::declare::declare;
use crate::known::{alias_id, const_id, entry_id, function_id, variable_id};
use crate::word::{name, text, word};
use module_arena::{Arena, Body};
use std::alloc::Global;

fn set_texts(alloc: Global, arena: &mut Arena, line: &str) -> Result<Answer, Refusal> {
    let source = text(alloc, word(line, 1))?;
    let layout = text(alloc, word(line, 2))?;
    let triple = text(alloc, word(line, 3))?;
    arena.set_texts(Some(source), Some(layout), Some(triple));
    Ok(Answer::Said("done"))
}

fn set_initialiser(arena: &mut Arena, number: u64, constant: u64) -> Result<Answer, Refusal> {
    let id = variable_id(arena, number)?;
    let constant = const_id(arena, constant)?;
    if arena.variable(id).initialiser.is_some() {
        return Err(Refusal::NoCall);
    }
    arena.set_initialiser(id, constant);
    Ok(Answer::Said("done"))
}

fn set_target(arena: &mut Arena, number: u64, kind: &str, target: u64) -> Result<Answer, Refusal> {
    let id = alias_id(arena, number)?;
    let target = entry_id(arena, kind, target)?;
    if arena.alias(id).target.is_some() {
        return Err(Refusal::NoCall);
    }
    arena.set_target(id, target);
    Ok(Answer::Said("done"))
}

/// Gives a function without parameters its body.
fn define(arena: &mut Arena, number: u64, body: Body) -> Result<Answer, Refusal>
    requires { KnowsBody (length arena.old.table.types) (length arena.old.constants) 0 body }
{
    let id = function_id(arena, number)?;
    if arena.function(id).body.is_some() {
        return Err(Refusal::NoCall);
    }
    if !arena.function(id).parameters.is_empty() {
        return Err(Refusal::NoCall);
    }
    arena.define(id, body);
    Ok(Answer::Said("done"))
}

/// Gives a function the body with one block.
fn define_small(
    alloc: Global,
    arena: &mut Arena,
    number: u64,
    numbers: &[u64],
) -> Result<Answer, Refusal> {
    let parts = read_parts(arena, numbers)?;
    let body = small_body(alloc, &parts)?;
    define(arena, number, body)
}

/// Gives a function the body of the loop.
fn define_sum(
    alloc: Global,
    arena: &mut Arena,
    number: u64,
    numbers: &[u64],
) -> Result<Answer, Refusal> {
    let parts = read_parts(arena, numbers)?;
    let body = sum_body(alloc, &parts)?;
    define(arena, number, body)
}

/// Declares and defines a number of functions with one block.
fn functions(
    alloc: Global,
    arena: &mut Arena,
    count: u64,
    numbers: &[u64],
) -> Result<Answer, Refusal> {
    let [ty, ..] = numbers else {
        return Err(Refusal::NoCall);
    };
    for _ in 0..count {
        let number = u64::from(arena.function_count());
        let word = format!(in alloc; "function{number}")?;
        declare(
            alloc,
            arena,
            "function",
            name(alloc, word.as_str())?,
            &[*ty],
        )?;
        define_small(alloc, arena, number, numbers)?;
    }
    Ok(Answer::Said("done"))
}

/// Sets texts, an initialiser, a target or a body.
pub fn set(
    alloc: Global,
    arena: &mut Arena,
    line: &str,
    numbers: &[u64],
) -> Result<Answer, Refusal> {
    match (word(line, 0), numbers) {
        ("texts", [_, _, _]) => set_texts(alloc, arena, line),
        ("initialise", [number, constant]) => set_initialiser(arena, *number, *constant),
        ("target", [number, _, target]) => set_target(arena, *number, word(line, 2), *target),
        ("small", [number, rest @ ..]) => define_small(alloc, arena, *number, rest),
        ("sum", [number, rest @ ..]) => define_sum(alloc, arena, *number, rest),
        ("functions", [count, rest @ ..]) => functions(alloc, arena, *count, rest),
        _ => Err(Refusal::NoCall),
    }
}
