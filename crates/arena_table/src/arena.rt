//! What calls on an arena answer.
//!
//! Types, structs, constants and entries are called by their numbers. Besides the calls that add
//! types and structs there are:
//!
//! - `struct NAME`; `number VALUE`, `null`, `address KIND ENTRY`, which add a constant
//! - `variable NAME TYPE`, `alias NAME TYPE`, `function NAME TYPE..`, `variadic NAME TYPE..`, which
//!   declare an entry, and `repeat COUNT KIND TYPE..`, that number of them
//! - `texts SOURCE LAYOUT TRIPLE`, `initialise VARIABLE CONSTANT`, `target ALIAS KIND ENTRY`
//! - `small FUNCTION PARTS`, `sum FUNCTION PARTS`, which give it a body, and
//!   `functions COUNT PARTS`, that number of small functions. The parts are an integer type,
//!   `ptr`, `i1`, and three constants
//! - `find NAME`, `show KIND ENTRY`, `constant CONSTANT`, `block FUNCTION BLOCK`,
//!   `host NAME FUNCTION`, `counts`, `texts?`, and `sealed`, the counts of the copy of a sealed
//!   module without entries
mod body;
mod constants;
mod declare;
mod set;
mod show;

use crate::answer::{Answer, Refusal};
use crate::types::{add_type, define_struct, name_struct};
use crate::word::{name, numbers, word};
use constants::add_constant;
use declare::{declare, repeat};
use module_arena::Arena;
use set::set;
use show::show;
use std::alloc::Global;

/// Makes the call of a line.
pub fn answer(alloc: Global, arena: &mut Arena, line: &str) -> Result<Answer, Refusal> {
    let numbers = numbers(alloc, line)?;
    let numbers = numbers.as_slice();
    let call = word(line, 0);
    match (call, numbers) {
        ("variable" | "alias" | "function" | "variadic", [_, types @ ..]) => {
            declare(alloc, arena, call, name(alloc, word(line, 1))?, types)
        }
        ("repeat", [count, _, types @ ..]) => repeat(alloc, arena, word(line, 2), *count, types),
        ("texts" | "initialise" | "target" | "small" | "sum" | "functions", _) => {
            set(alloc, arena, line, numbers)
        }
        ("find" | "show" | "constant" | "block" | "host" | "counts" | "sealed" | "texts?", _) => {
            show(alloc, arena, line, numbers)
        }
        _ => add(alloc, arena, line, numbers),
    }
}

// Adds a type, a struct or a constant, or gives a struct its fields.
fn add(alloc: Global, arena: &mut Arena, line: &str, numbers: &[u64]) -> Result<Answer, Refusal> {
    let call = word(line, 0);
    match call {
        "number" | "null" | "address" => add_constant(arena, line, numbers),
        "struct" => {
            let number = name_struct(alloc, arena, word(line, 1))?;
            Ok(Answer::Numbered("struct", number))
        }
        "fields" => define_struct(alloc, arena, call, numbers),
        _ => Ok(Answer::Numbered("type", add_type(alloc, arena, call, numbers)?)),
    }
}
