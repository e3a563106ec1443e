//! Many types and structs at once.
use crate::answer::{Answer, Refusal};
use crate::types::{add_type, define_struct, name_struct};
use module_arena::Arena;
use std::alloc::Global;

/// Adds a number of structs, each with the type before it as its only field, or as its only two.
pub fn add_nested(
    alloc: Global,
    arena: &mut Arena,
    doubled: bool,
    count: u64,
) -> Result<Answer, Refusal> {
    for _ in 0..count {
        let last = arena.types().type_count().saturating_sub(1);
        let fields = [last, last];
        let used = if doubled { 2 } else { 1 };
        add_type(alloc, arena, "plain", &fields[..used])?;
    }
    Ok(Answer::Said("done"))
}

/// Adds a number of structs, all named before any is defined. Each has the one before it twice,
/// but for each eighth one, which has the first type twice.
pub fn add_row(alloc: Global, arena: &mut Arena, count: u64) -> Result<Answer, Refusal> {
    let first = u64::from(arena.types().struct_count());
    for i in 0..count {
        name_struct(alloc, arena, format!(in alloc; "s{i}")?.as_str())?;
    }
    let mut field = 0;
    for i in 0..count {
        let id = first.saturating_add(i);
        define_struct(alloc, arena, "body", &[id, field, field])?;
        field = if i % 8 == 7 {
            0
        } else {
            add_type(alloc, arena, "named", &[id])?
        };
    }
    Ok(Answer::Said("done"))
}
