//! What is asked of parts, answered.

ghost use Rattle.std.specs.Prelude.{◌≡◌};
ghost use Rattle.linkage_rules.specs.Ids.{modules};
ghost use Rattle.linkage_rules.specs.Resolved.{AreBindings};
ghost use Rattle.linkage_rules.specs.Symbols.{symbols};

use crate::lines::{number_of, parts, unescaped};
use crate::meaning::add_meaning;
use crate::placing::add_places;
use crate::symbols::{add_name, add_part, add_symbol, kind_word};
use crate::telling::{add, add_number};
use ir_base::{Name, Text};
use linkage_rules::{Bindings, ConflictKind, EntryId, Symbol, SymbolFault, resolve_symbols};
use module_arena::Checked;
use std::alloc::{AllocError, Global};

/// The words for a kind of conflict.
fn conflict_words(kind: ConflictKind) -> &'static str {
    match kind {
        ConflictKind::TwoStrong => "two strong",
        ConflictKind::FunctionAndVariable => "function and variable",
        ConflictKind::AppendingAndPlain => "appending and plain",
        ConflictKind::ElementShape => "element shape",
        ConflictKind::Constness => "constness",
    }
}

/// Adds a line for each symbol.
fn add_symbols(told: &mut Vec<u8>, alloc: Global, bindings: &Bindings) -> Result<(), AllocError> {
    for symbol in bindings.symbols().as_slice() {
        add_symbol(told, alloc, bindings, symbol)?;
        add(told, "\n")?;
    }
    Ok(())
}

/// Adds where a symbol is defined.
fn add_home(
    told: &mut Vec<u8>,
    alloc: Global,
    bindings: &Bindings,
    symbol: &Symbol,
) -> Result<(), AllocError> {
    if bindings.entries(symbol).is_empty() {
        return add(told, "no symbol\n");
    }
    let Some(EntryId { part, kind, .. }) = bindings.home(symbol) else {
        return add(told, "none\n");
    };
    add(told, kind_word(kind))?;
    add_name(told, symbol.name())?;
    add_part(told, alloc, part)?;
    add(told, "\n")
}

/// The name that is spelled so, if it is one.
fn name_of(alloc: Global, spelled: &[u8]) -> Result<Option<Name>, AllocError> {
    let text = Text::from_vec(unescaped(alloc, spelled)?);
    Ok(Name::from_text(text).ok())
}

/// Adds what is told of a name of a part.
fn add_name_told(
    told: &mut Vec<u8>,
    alloc: Global,
    linked: &[Checked],
    bindings: &Bindings,
    question: &[u8],
) -> Result<(), AllocError>
    requires { AreBindings linked.now bindings.now }
{
    let (key, rest) = parts(question);
    let (part, spelled) = parts(rest);
    let part = number_of(part);
    match (key, name_of(alloc, spelled)?) {
        (b"bind", Some(name)) => add_meaning(told, alloc, linked, bindings, part, &name),
        (b"bind", None) => add(told, "no entry\n"),
        (_, Some(name)) => add_home(told, alloc, bindings, &Symbol::Local(part, name)),
        (_, None) => add(told, "no symbol\n"),
    }
}

/// Adds the answer to a question where the parts are in no conflict.
fn add_told(
    told: &mut Vec<u8>,
    alloc: Global,
    linked: &[Checked],
    bindings: &Bindings,
    question: &[u8],
) -> Result<(), AllocError>
    requires bindings { AreBindings linked.now bindings.now }
    requires symbols { bindings.now.symbols ≡ symbols (modules linked.now) }
{
    let (key, rest) = parts(question);
    match key {
        b"conflict" => add(told, "none\n"),
        b"symbols" => add_symbols(told, alloc, bindings),
        b"places" => add_places(told, alloc, linked, bindings),
        b"home" => match name_of(alloc, rest)? {
            Some(name) => add_home(told, alloc, bindings, &Symbol::Shared(name)),
            None => add(told, "no symbol\n"),
        },
        _ => add_name_told(told, alloc, linked, bindings, question),
    }
}

/// Adds two parts in conflict.
fn add_conflict(
    told: &mut Vec<u8>,
    alloc: Global,
    kind: ConflictKind,
    name: &Name,
    parts: (u64, u64),
) -> Result<(), AllocError> {
    let (one, other) = parts;
    add(told, conflict_words(kind))?;
    add(told, ":")?;
    add_name(told, name)?;
    add(told, " in ")?;
    add_number(told, alloc, one)?;
    add(told, " and ")?;
    add_number(told, alloc, other)?;
    add(told, "\n")
}

/// Adds the answer to a question: the conflict where the parts are in conflict.
pub(crate) fn add_answer(
    told: &mut Vec<u8>,
    alloc: Global,
    parts: &[Checked],
    question: &[u8],
) -> Result<(), AllocError> {
    match resolve_symbols(alloc, parts) {
        Ok(bindings) => add_told(told, alloc, parts, &bindings, question),
        Err(
            SymbolFault::Conflict {
                kind,
                name,
                one,
                other,
            },
        ) => add_conflict(told, alloc, kind, &name, (one, other)),
        Err(SymbolFault::Memory) => add(told, "out of memory\n"),
    }
}
