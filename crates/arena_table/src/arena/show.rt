//! What an arena has.
ghost use Rattle.module_arena.specs.Known.{counts, HasGlobal};

use crate::answer::{Answer, Refusal, entry, kind_and_number};
use crate::known::{const_id, entry_id, function_id};
use crate::word::{name, shown, word};
use ir_base::Text;
use module_arena::{
    Alias, Arena, Block, BlockId, Checked, Const, Ending, Function, GlobalId, Inst, LocalName,
    Variable, host_row, host_row_fits,
};
use std::alloc::{AllocError, Global};

fn find(alloc: Global, arena: &Arena, word: &str) -> Result<Answer, Refusal> {
    match arena.lookup(&name(alloc, word)?) {
        Some(id) => Ok(entry(id)),
        None => Ok(Answer::Said("none")),
    }
}

// What an entry is.
fn shown_entry(alloc: Global, arena: &Arena, id: GlobalId) -> Result<String, AllocError>
    requires { HasGlobal (counts arena.now) id }
{
    match id {
        GlobalId::Variable(id) => shown_variable(alloc, arena.variable(id)),
        GlobalId::Function(id) => shown_function(alloc, arena.function(id)),
        GlobalId::Alias(id) => shown_alias(alloc, arena.alias(id)),
    }
}

fn shown_variable(alloc: Global, variable: &Variable) -> Result<String, AllocError> {
    let name = shown(variable.name.text().bytes());
    let (linkage, ty) = (variable.linkage.word(), variable.ty.number());
    match variable.initialiser {
        Some(id) => format!(in alloc; "{name}, {linkage}, type {ty}, constant {}", id.number()),
        None => format!(in alloc; "{name}, {linkage}, type {ty}, not defined"),
    }
}

fn shown_function(alloc: Global, function: &Function) -> Result<String, AllocError> {
    let name = shown(function.name.text().bytes());
    let (linkage, ty) = (function.linkage.word(), function.result.number());
    let (parameters, blocks) = (function.parameters.len(), function.block_count());
    format!(in alloc; "{name}, {linkage}, type {ty}, {parameters} parameters, {blocks} blocks")
}

fn shown_alias(alloc: Global, alias: &Alias) -> Result<String, AllocError> {
    let name = shown(alias.name.text().bytes());
    let linkage = alias.linkage.word();
    match alias.target {
        Some(id) => {
            let (kind, number) = kind_and_number(id);
            format!(in alloc; "{name}, {linkage}, of {kind} {number}")
        }
        None => format!(in alloc; "{name}, {linkage}, of nothing"),
    }
}

fn shown_constant(alloc: Global, constant: &Const) -> Result<String, AllocError> {
    match constant {
        Const::Integer(number) => format!(in alloc; "number {number}"),
        Const::Null => format!(in alloc; "null"),
        Const::Address(id) => {
            let (kind, number) = kind_and_number(*id);
            format!(in alloc; "address of {kind} {number}")
        }
        _ => format!(in alloc; "another"),
    }
}

fn shown_counts(alloc: Global, arena: &Arena) -> Result<String, AllocError> {
    let (variables, functions) = (arena.variable_count(), arena.function_count());
    let (aliases, constants) = (arena.alias_count(), arena.const_count());
    let (types, structs) = (arena.types().type_count(), arena.types().struct_count());
    let mut text = format!(in alloc; "{types} types, {structs} structs, {constants} constants, ")?;
    write!(
        text,
        "{variables} variables, {functions} functions, {aliases} aliases"
    )?;
    Ok(text)
}

/// The copy of a sealed module without entries.
fn sealed_copy(alloc: Global) -> Result<Checked, AllocError> {
    let sealed = Checked::seal(Arena::new(alloc));
    sealed.copy(alloc)
}

fn shown_text(text: Option<&Text>) -> &str {
    match text {
        Some(text) => shown(text.bytes()),
        None => "none",
    }
}

fn shown_texts(alloc: Global, arena: &Arena) -> Result<String, AllocError> {
    let (source, layout) = (shown_text(arena.source()), shown_text(arena.data_layout()));
    let triple = shown_text(arena.triple());
    format!(in alloc; "{source}, {layout}, {triple}")
}

fn push_inst(text: &mut String, inst: &Inst) -> Result<(), AllocError> {
    match inst {
        Inst::Alloca(result, _, _, _) => write!(text, ", {} is alloca", result.number()),
        Inst::Load(_, result, _, _, _) => write!(text, ", {} is load", result.number()),
        Inst::Store(_, _, _, _) => write!(text, ", store"),
        Inst::Compare(_, predicate, result, _, _) => {
            write!(text, ", {} is icmp {}", result.number(), predicate.word())
        }
        Inst::Binary(opcode, _, result, _, _) => {
            write!(text, ", {} is {}", result.number(), opcode.word())
        }
        _ => write!(text, ", another"),
    }
}

fn push_ending(text: &mut String, ending: &Ending) -> Result<(), AllocError> {
    match ending {
        Ending::Jump(to) => write!(text, ", to {}", to.number()),
        Ending::Branch {
            then_to,
            else_to,
            ..
        } => write!(text, ", to {} or {}", then_to.number(), else_to.number()),
        Ending::Return(_) => write!(text, ", return"),
        _ => write!(text, ", another"),
    }
}

fn shown_block(alloc: Global, block: &Block) -> Result<String, AllocError> {
    let mut text = String::new(alloc);
    match &block.name {
        LocalName::Numbered(number) => write!(text, "%{number}")?,
        LocalName::Named(name) => write!(text, "%{}", shown(name.text().bytes()))?,
    }
    for inst in block.instructions.as_slice() {
        push_inst(&mut text, inst)?;
    }
    push_ending(&mut text, &block.end)?;
    Ok(text)
}

fn block_of(alloc: Global, arena: &Arena, number: u64, at: u64) -> Result<Answer, Refusal> {
    let function = arena.function(function_id(arena, number)?);
    if at >= function.block_count() || at > u64::from(u32::MAX) {
        return Err(Refusal::NoCall);
    }
    let text = shown_block(alloc, function.block(BlockId::new(at as u32)))?;
    Ok(Answer::Shown(text))
}

/// Whether there is a host function of that name, and whether the function is declared as it.
fn host(arena: &Arena, word: &str, number: u64) -> Result<Answer, Refusal> {
    let id = function_id(arena, number)?;
    match host_row(word.as_bytes()) {
        Some(row) if host_row_fits(row, arena, id) => Ok(Answer::Said("fits")),
        Some(_) => Ok(Answer::Said("does not fit")),
        None => Ok(Answer::Said("none")),
    }
}

/// Answers a question.
pub fn show(alloc: Global, arena: &Arena, line: &str, numbers: &[u64]) -> Result<Answer, Refusal> {
    match (word(line, 0), numbers) {
        ("find", [_]) => find(alloc, arena, word(line, 1)),
        ("show", [_, number]) => {
            let id = entry_id(arena, word(line, 1), *number)?;
            Ok(Answer::Shown(shown_entry(alloc, arena, id)?))
        }
        ("constant", [number]) => {
            let id = const_id(arena, *number)?;
            Ok(Answer::Shown(shown_constant(alloc, arena.constant(id))?))
        }
        ("block", [number, at]) => block_of(alloc, arena, *number, *at),
        ("host", [_, number]) => host(arena, word(line, 1), *number),
        ("counts", []) => Ok(Answer::Shown(shown_counts(alloc, arena)?)),
        ("sealed", []) => {
            let copy = sealed_copy(alloc)?;
            Ok(Answer::Shown(shown_counts(alloc, copy.arena())?))
        }
        ("texts?", []) => Ok(Answer::Shown(shown_texts(alloc, arena)?)),
        _ => Err(Refusal::NoCall),
    }
}
