//! What variables need in memory.
ghost use Rattle.std.specs.Prelude.{◌≡◌, ◌&&◌, map, filter, true, All};
ghost use Rattle.std.specs.Option.{option_map};
ghost use Rattle.linkage_rules.specs.Globals.{linkage_of};
ghost use Rattle.linkage_rules.specs.Linkages.{is_common};
ghost use Rattle.linkage_rules.specs.Ids.{IsEntryId, modules, seen};
ghost use Rattle.linkage_rules.specs.Addresses as addresses;
ghost use Rattle.linkage_rules.specs.Resolved.{AreBindings};
ghost use Rattle.linkage_rules.specs.Winner as winner;
ghost use Rattle.linkage_rules.specs.Resolving.Extents.{common_of, or_greater, stated_of};
ghost use Rattle.linkage_rules.specs.Resolving.Places.{clamped, greater, room_told};

use crate::resolving::extent::extent_of;
use crate::{Bindings, EntryId, Symbol, head_of, is_definition};
use ir_tables::Linkage;
use module_arena::Checked;

/// What a variable needs in memory.
///
/// ```
/// Room { size: 4, alignment: 4 } // of `@a = global i32 7`
/// ```
#[derive(Clone, Copy)]
pub struct Room {
    /// Its bytes; 2^64 - 1 where there are more.
    pub size: u64,
    /// Its alignment in bytes.
    pub alignment: u32,
}

/// The alignment that a definition states, or else its type's.
fn alignment_in(parts: &[Checked], id: EntryId) -> u32
    requires entry { IsEntryId parts.now id }
    requires definition { winner.is_definition (seen (modules parts.now) id) ≡ true }
    ensures { result ≡ addresses.alignment_in (modules parts.now) (seen (modules parts.now) id) }
{
    let extent = extent_of(parts, id);
    extent.stated.unwrap_or(extent.alignment)
}

/// The greater of a number and what was greatest before it.
fn greater(so_far: Option<u32>, number: u32) -> Option<u32>
    ensures { result ≡ greater so_far number }
{
    match so_far {
        Some(greatest) => Some(greatest.max(number)),
        None => Some(number),
    }
}

/// The greater of a number, where there is one, and what was greatest before it.
fn or_greater(so_far: Option<u32>, number: Option<u32>) -> Option<u32>
    ensures { result ≡ or_greater so_far number }
{
    match number {
        Some(number) => greater(so_far, number),
        None => so_far,
    }
}

/// The alignment that an entry states, if it is a definition.
fn stated_in(parts: &[Checked], id: EntryId) -> Option<u32>
    requires { IsEntryId parts.now id }
    ensures { result ≡ stated_of (seen (modules parts.now) id) }
{
    if is_definition(parts, id) {
        extent_of(parts, id).stated
    } else {
        None
    }
}

/// Whether an entry is a common definition (LangRef, "Linkage Types").
pub fn is_common(parts: &[Checked], id: EntryId) -> bool
    requires { IsEntryId parts.now id }
    ensures { result ≡ (winner.is_definition (seen (modules parts.now) id) && is_common (linkage_of (seen (modules parts.now) id).global)) }
{
    is_definition(parts, id) && matches!(head_of(parts, id).linkage, Linkage::Common)
}

/// The alignment of an entry, if it is a common definition.
fn common_in(parts: &[Checked], id: EntryId) -> Option<u32>
    requires { IsEntryId parts.now id }
    ensures { result ≡ common_of (modules parts.now) (seen (modules parts.now) id) }
{
    if is_common(parts, id) {
        Some(alignment_in(parts, id))
    } else {
        None
    }
}

/// The elements of the arrays of all definitions among some entries together; 2^64 - 1 where there are more (LangRef, "Linkage
/// Types").
pub fn joined_length(parts: &[Checked], ids: &[EntryId]) -> u64
    requires { All (IsEntryId parts.now) ids.now }
    ensures { result ≡ clamped (addresses.joined_length (filter winner.is_definition (map (seen (modules parts.now)) ids.now))) }
{
    let mut length = 0u64;
    for id in ids {
        if is_definition(parts, *id) {
            length = length.saturating_add(extent_of(parts, *id).length);
        }
    }
    length
}

/// The greatest alignment in bytes that a definition among some entries states, where one states any.
pub fn greatest_stated(parts: &[Checked], ids: &[EntryId]) -> Option<u32>
    requires { All (IsEntryId parts.now) ids.now }
    ensures { result ≡ addresses.greatest_stated (filter winner.is_definition (map (seen (modules parts.now)) ids.now)) }
{
    let mut greatest = None;
    for id in ids {
        greatest = or_greater(greatest, stated_in(parts, *id));
    }
    greatest
}

/// The greatest alignment in bytes of the common definitions among some entries, stated or their types', where there is one.
pub fn greatest_common(parts: &[Checked], ids: &[EntryId]) -> Option<u32>
    requires { All (IsEntryId parts.now) ids.now }
    ensures { result ≡ addresses.greatest_common (modules parts.now) (filter winner.is_definition (map (seen (modules parts.now)) ids.now)) }
{
    let mut greatest = None;
    for id in ids {
        greatest = or_greater(greatest, common_in(parts, *id));
    }
    greatest
}

/// The room of a symbol that is defined there.
fn room_by(parts: &[Checked], home: EntryId, ids: &[EntryId]) -> Room
    requires home { IsEntryId parts.now home }
    requires definition { winner.is_definition (seen (modules parts.now) home) ≡ true }
    requires known { All (IsEntryId parts.now) ids.now }
    ensures size { result.size ≡ clamped (addresses.size_by (modules parts.now) (seen (modules parts.now) home) (filter winner.is_definition (map (seen (modules parts.now)) ids.now))) }
    ensures alignment { result.alignment ≡ addresses.alignment_by (modules parts.now) (seen (modules parts.now) home) (filter winner.is_definition (map (seen (modules parts.now)) ids.now)) }
{
    let extent = extent_of(parts, home);
    match head_of(parts, home).linkage {
        Linkage::Appending => Room {
            size: joined_length(parts, ids).saturating_mul(extent.element),
            alignment: greatest_stated(parts, ids).unwrap_or(extent.alignment),
        },
        Linkage::Common => Room {
            size: extent.size,
            alignment: greatest_common(parts, ids).unwrap_or(alignment_in(parts, home)),
        },
        _ => Room {
            size: extent.size,
            alignment: alignment_in(parts, home),
        },
    }
}

/// What a symbol needs in memory; None exactly where no part defines it. A common that wins has the greatest alignment of
/// all common definitions, and an appended array the greatest that is stated, and the bytes of all elements (LangRef,
/// "Linkage Types").
pub fn room_of(parts: &[Checked], bindings: &Bindings, symbol: &Symbol) -> Option<Room>
    requires { AreBindings parts.now bindings.now }
    ensures { result ≡ option_map room_told (addresses.room (modules parts.now) symbol.now) }
{
    let Some(home) = bindings.home(symbol) else {
        return None;
    };
    Some(room_by(parts, home, bindings.entries(symbol)))
}
