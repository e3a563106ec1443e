//! How large appended arrays would be.
ghost use Rattle.std.specs.Prelude.{◌≡◌, map, filter, true, All};
ghost use Rattle.std.specs.Option.{option_map};
ghost use Rattle.linkage_rules.specs.Conflicts.{appends};
ghost use Rattle.linkage_rules.specs.Globals.{element_of, type_of};
ghost use Rattle.linkage_rules.specs.Ids.{IsEntryId, modules, seen};
ghost use Rattle.linkage_rules.specs.Resolved.{AreBindings};
ghost use Rattle.linkage_rules.specs.Symbols.{symbols};
ghost use Rattle.linkage_rules.specs.Winner as winner;
ghost use Rattle.linkage_rules.specs.Winner.{size_in};
ghost use Rattle.linkage_rules.specs.Resolving.Places.{clamped};
ghost use Rattle.link_rules.specs.Counts as counts;
ghost use Rattle.link_names.specs.Counts.Told.{appended_of, first_appended, if_long, too_long_of};

use ir_tables::Linkage;
use link_rules::APPENDED_LIMIT;
use linkage_rules::resolving::joined_length;
use linkage_rules::{Bindings, EntryId, Symbol, SymbolKind, arena_of, element_of, head_of};
use module_arena::Checked;

/// Whether the elements of an entry stand behind those of other parts.
fn is_appended(parts: &[Checked], id: EntryId) -> bool
    requires { IsEntryId parts.now id }
    ensures { result ≡ appends (seen (modules parts.now) id) }
{
    matches!(head_of(parts, id).linkage, Linkage::Appending)
}

/// The bytes of an element of an appended array; of any other variable its own.
fn element_size(parts: &[Checked], id: EntryId) -> u64
    requires entry { IsEntryId parts.now id }
    requires appended { appends (seen (modules parts.now) id) ≡ true }
    requires definition { winner.is_definition (seen (modules parts.now) id) ≡ true }
    ensures { result ≡ size_in (modules parts.now) (seen (modules parts.now) id).part (element_of (type_of (seen (modules parts.now) id).global)) }
{
    let arena = arena_of(parts, id.part);
    // The types of the variables of an arena are types of the arena, and so are the parts of these.
    let _count = arena.variable_count();
    match arena.types().layout(element_of(arena, id.number)) {
        Some(layout) => layout.size,
        None => 0,
    }
}

/// The greater of the length and the bytes of the array of the elements of all definitions; 2^64 - 1 where there are more.
fn appended_bytes(parts: &[Checked], home: EntryId, ids: &[EntryId]) -> u64
    requires home { IsEntryId parts.now home }
    requires appended { appends (seen (modules parts.now) home) ≡ true }
    requires definition { winner.is_definition (seen (modules parts.now) home) ≡ true }
    requires known { All (IsEntryId parts.now) ids.now }
    ensures { result ≡ clamped (counts.appended_bytes (modules parts.now) (seen (modules parts.now) home) (filter winner.is_definition (map (seen (modules parts.now)) ids.now))) }
{
    let length = joined_length(parts, ids);
    length.max(length.saturating_mul(element_size(parts, home)))
}

/// The size of a symbol, if it is appended.
fn appended_of(parts: &[Checked], bindings: &Bindings, symbol: &Symbol) -> Option<u64>
    requires { AreBindings parts.now bindings.now }
    ensures { result ≡ option_map clamped (appended_of (modules parts.now) symbol.now) }
{
    let Some(home) = bindings.home(symbol) else {
        return None;
    };
    if !is_appended(parts, home) {
        return None;
    }
    Some(appended_bytes(parts, home, bindings.entries(symbol)))
}

/// A size that is past the limit.
fn if_long(size: Option<u64>) -> Option<u64>
    ensures { result ≡ if_long size }
{
    match size {
        Some(bytes) if bytes > APPENDED_LIMIT => Some(bytes),
        _ => None,
    }
}

/// The size of a symbol, if it is a variable that is appended and past the limit.
fn too_long(parts: &[Checked], bindings: &Bindings, symbol: &Symbol) -> Option<u64>
    requires { AreBindings parts.now bindings.now }
    ensures { result ≡ option_map clamped (too_long_of (modules parts.now) symbol.now) }
{
    match bindings.kind(parts, symbol) {
        SymbolKind::Variable => if_long(appended_of(parts, bindings, symbol)),
        SymbolKind::Function | SymbolKind::Alias => None,
    }
}

/// The size of the first appended array that is past the limit.
pub(crate) fn first_appended(parts: &[Checked], bindings: &Bindings) -> Option<u64>
    requires symbols { bindings.now.symbols ≡ symbols (modules parts.now) }
    requires bindings { AreBindings parts.now bindings.now }
    ensures { result ≡ option_map clamped (first_appended (modules parts.now)) }
{
    let symbols = bindings.symbols().as_slice();
    for symbol in symbols {
        if let Some(bytes) = too_long(parts, bindings, symbol) {
            return Some(bytes);
        }
    }
    None
}
