//! Variables, functions and aliases by their indices.
ghost use Rattle.std.specs.Prelude.{◌≡◌, ◌↔◌, ◌+◌, ◌<◌, ◌≤◌, [], take, bytes_eq, IsTrue, IfSome};
ghost use Rattle.module_arena.specs.Known.{HasGlobal, counts};
ghost use Rattle.record_table.specs.Fields.{Numbering, global, target};
ghost use Rattle.record_table.specs.Layout.{indexed};
ghost use Rattle.type_read.specs.Arena.Numbered.{Numbers, ReadsGlobal, global_count, global_of};
ghost use Rattle.type_read.specs.Arena.Kept.{TakesOnly};

use crate::arena::{GlobalCounts, ModuleReader};
use module_arena::{AliasId, Arena, FunctionId, GlobalId, VariableId};
use record_read::read_place;

/// The entry of that index: variables come first, then functions, then aliases.
fn global_at(counts: GlobalCounts, index: u64) -> GlobalId
    requires { index < global_count counts }
    ensures { result ≡ global_of counts index }
{
    let variables = u64::from(counts.variables);
    let functions = u64::from(counts.functions);
    if index < variables {
        return GlobalId::Variable(VariableId::new(index as u32));
    }
    if index < variables + functions {
        return GlobalId::Function(FunctionId::new((index - variables) as u32));
    }
    GlobalId::Alias(AliasId::new((index - variables - functions) as u32))
}

/// How many entries there are.
fn count_of(counts: GlobalCounts) -> u64
    ensures { result ≡ global_count counts }
{
    u64::from(counts.variables) + u64::from(counts.functions) + u64::from(counts.aliases)
}

/// How many of them may be what an alias is of.
fn target_count(counts: GlobalCounts) -> u64
    ensures { result ≡ counts.variables + counts.functions }
{
    u64::from(counts.variables) + u64::from(counts.functions)
}

/// Whether the arena has the entry.
fn is_declared(arena: &Arena, id: &GlobalId) -> bool
    ensures { IsTrue result ↔ HasGlobal (counts arena.now) id.now }
{
    match id {
        GlobalId::Variable(id) => id.number() < arena.variable_count(),
        GlobalId::Function(id) => id.number() < arena.function_count(),
        GlobalId::Alias(id) => id.number() < arena.alias_count(),
    }
}

/// One of so many entries. None only where a rule is broken, or where the entry is not declared: then a later record will be
/// refused.
fn read_among(m: &mut ModuleReader<'_>, count: u64) -> Option<GlobalId>
    requires { count ≤ global_count m.old.globals }
    ensures takes { TakesOnly m.old m.new }
    ensures there { IfSome result (HasGlobal (counts m.new.growing.arena)) }
    ensures reads { (k : Numbering) → Numbers m.old k → ReadsGlobal k (indexed bytes_eq (take count k.globals) []) m.old m.new result }
{
    let index = read_place(&mut m.reader, count)?;
    let id = global_at(m.globals, index);
    if is_declared(m.growing.arena(), &id) {
        Some(id)
    } else {
        None
    }
}

/// A variable, function or alias by its index. Another index breaks rule 2; then there is none. There may be none besides
/// where not all entries are declared.
pub fn read_global(m: &mut ModuleReader<'_>) -> Option<GlobalId>
    ensures takes { TakesOnly m.old m.new }
    ensures there { IfSome result (HasGlobal (counts m.new.growing.arena)) }
    ensures reads { (k : Numbering) → Numbers m.old k → ReadsGlobal k (global k) m.old m.new result }
{
    let count = count_of(m.globals);
    read_among(m, count)
}

/// A variable or function by its index. Another index breaks rule 2; then there is none. There may be none besides where not
/// all entries are declared.
pub fn read_target(m: &mut ModuleReader<'_>) -> Option<GlobalId>
    ensures takes { TakesOnly m.old m.new }
    ensures there { IfSome result (HasGlobal (counts m.new.growing.arena)) }
    ensures reads { (k : Numbering) → Numbers m.old k → ReadsGlobal k (target k) m.old m.new result }
{
    let count = target_count(m.globals);
    read_among(m, count)
}
