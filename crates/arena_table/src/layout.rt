//! What calls on tables of types answer.
//!
//! Besides the calls that add types and structs there are `name NAME` and `find NAME`, of structs;
//! `nest COUNT`, `double COUNT` and `row COUNT`, which add many; what `questions` has; and
//! measures of types that are in no table, with a `?` after the word: `int? WIDTH`,
//! `array? LENGTH MEASURE`, `plain? MEASURE..`. `copy` keeps a copy of the table as the one before;
//! `new` does too, and goes on with a table without types.
mod measures;
mod questions;
mod series;

use crate::answer::{Answer, Refusal, found};
use crate::types::{add_type, define_struct, name_struct};
use crate::word::{name, numbers, word};
use measures::measure;
use module_arena::Arena;
use questions::ask;
use series::{add_nested, add_row};
use std::alloc::Global;
use type_table::{Measure, TypeTable};

/// The arena with the table that calls are made on, the one before it, and measures.
#[derive(Drop)]
pub struct Bench {
    before: TypeTable,
    arena: Arena,
    measures: Vec<Measure>,
}

impl Bench {
    /// Two tables without types.
    pub fn new(alloc: Global) -> Bench {
        Bench {
            before: TypeTable::new(alloc),
            arena: Arena::new(alloc),
            measures: Vec::new(alloc),
        }
    }

    /// Makes the call of a line.
    pub fn answer(&mut self, alloc: Global, line: &str) -> Result<Answer, Refusal> {
        let numbers = numbers(alloc, line)?;
        let call = word(line, 0);
        match call.strip_suffix("?") {
            Some(kind) => measure(alloc, &mut self.measures, kind, numbers.as_slice()),
            None => match call {
                "new" => self.begin(alloc),
                "copy" => self.keep(alloc),
                "name" => {
                    let number = name_struct(alloc, &mut self.arena, word(line, 1))?;
                    Ok(Answer::Numbered("struct", number))
                }
                "find" => find(alloc, &self.arena, word(line, 1)),
                _ => self.answer_by_numbers(alloc, call, numbers.as_slice()),
            },
        }
    }

    fn answer_by_numbers(
        &mut self,
        alloc: Global,
        call: &str,
        numbers: &[u64],
    ) -> Result<Answer, Refusal> {
        let arena = &mut self.arena;
        match (call, numbers) {
            ("nest", [count]) => add_nested(alloc, arena, false, *count),
            ("double", [count]) => add_nested(alloc, arena, true, *count),
            ("row", [count]) => add_row(alloc, arena, *count),
            ("opaque" | "body" | "tight", _) => define_struct(alloc, arena, call, numbers),
            ("int" | "ptr" | "void" | "array" | "plain" | "packed" | "named", _) => Ok(
                Answer::Numbered("type", add_type(alloc, arena, call, numbers)?),
            ),
            _ => ask(alloc, &self.before, arena.types(), call, numbers),
        }
    }

    // Keeps a copy of the table as the one before.
    fn keep(&mut self, alloc: Global) -> Result<Answer, Refusal> {
        self.before = self.arena.types().copy(alloc)?;
        Ok(Answer::Said("done"))
    }

    // Goes on with a table without types.
    fn begin(&mut self, alloc: Global) -> Result<Answer, Refusal> {
        let answer = self.keep(alloc)?;
        self.arena = Arena::new(alloc);
        Ok(answer)
    }
}

// The struct with that name.
fn find(alloc: Global, arena: &Arena, word: &str) -> Result<Answer, Refusal> {
    let id = arena.types().struct_of(&name(alloc, word)?);
    Ok(found("struct", id.map(|id| u64::from(id.number()))))
}
