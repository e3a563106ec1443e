//! The first conflict.
ghost use Rattle.std.specs.Prelude.{◌≡◌, ◌<◌, ◌&&◌, not, length, map, true, All, None, IfSome, IfErr, OnOk};
ghost use Rattle.std.specs.Option.{option_map};
ghost use Rattle.linkage_rules.specs.Conflicts as conflicts;
ghost use Rattle.linkage_rules.specs.Elements.{element_id, IsElement};
ghost use Rattle.linkage_rules.specs.Ids.{IsEntryId, modules, seen};
ghost use Rattle.linkage_rules.specs.Grouped.{AreGroups, takes_part, differ, first_clash, clash_with, conflict_among, later_kinds, pair_behind, told, told_of, told_in};
ghost use Rattle.linkage_rules.specs.Lists.{first};
ghost use Rattle.linkage_rules.specs.SameShape.{agree};
ghost use Rattle.linkage_rules.specs.Resolved.{IsFault};
ghost use Rattle.linkage_rules.specs.Symbols.{symbols as all_symbols};

use crate::entry::{arena_of, head_of, is_definition};
use crate::groups::{Groups, group};
use crate::{ConflictKind, EntryId, Symbol, SymbolFault};
use ir_tables::Linkage;
use module_arena::{Arena, Checked, VariableId};
use std::alloc::Global;
use type_table::{IrType, TypeId};

/// A conflict, by the parts of its entries.
#[derive(Clone, Copy)]
pub(crate) struct EntryClash {
    kind: ConflictKind,
    one: u64,
    other: u64,
}

/// Whether an entry is a definition that suffers no other.
fn is_strong(parts: &[Checked], id: EntryId) -> bool
    requires { IsEntryId parts.now id }
    ensures { result ≡ conflicts.is_strong (seen (modules parts.now) id) }
{
    is_definition(parts, id) && matches!(head_of(parts, id).linkage, Linkage::External)
}

/// Whether the elements of an entry are to stand behind those of other parts.
fn appends(parts: &[Checked], id: EntryId) -> bool
    requires { IsEntryId parts.now id }
    ensures { result ≡ conflicts.appends (seen (modules parts.now) id) }
{
    matches!(head_of(parts, id).linkage, Linkage::Appending)
}

/// The type of the elements of an array type, and any other type itself.
fn element_id(own: TypeId, ty: &IrType) -> TypeId
    ensures { result ≡ element_id own ty.now }
{
    match ty {
        IrType::Array(_, element) => *element,
        IrType::Int(_) | IrType::Ptr | IrType::Void | IrType::Struct(_, _) | IrType::Named(_) => {
            own
        }
    }
}

/// The type of the elements of a variable that is an array, and of any other its own type. The variable is told by its
/// number, counted from 0.
pub fn element_of(arena: &Arena, number: u32) -> TypeId
    requires { number < length arena.now.variables }
    ensures { IsElement arena.now number result }
{
    // The types of the variables of an arena are types of the arena, and so are the parts of these.
    let _variables = arena.variable_count();
    let _types = arena.types().type_count();
    let ty = arena.variable(VariableId::new(number)).ty;
    element_id(ty, arena.types().get(ty))
}

/// Whether the elements of two appending entries have types of one shape.
fn are_alike(parts: &[Checked], one: EntryId, other: EntryId) -> bool
    requires one { IsEntryId parts.now one }
    requires other { IsEntryId parts.now other }
    requires one_appends { conflicts.appends (seen (modules parts.now) one) ≡ true }
    requires other_appends { conflicts.appends (seen (modules parts.now) other) ≡ true }
    ensures { result ≡ conflicts.elements_alike (modules parts.now) (seen (modules parts.now) one) (seen (modules parts.now) other) }
{
    let first = arena_of(parts, one.part);
    let second = arena_of(parts, other.part);
    let a = element_of(first, one.number);
    let b = element_of(second, other.number);
    first.types().shape_eq(a, second.types(), b)
}

/// Whether an entry can be in a conflict of this kind.
fn takes_part(parts: &[Checked], kind: ConflictKind, id: EntryId) -> bool
    requires { IsEntryId parts.now id }
    ensures { result ≡ takes_part kind (seen (modules parts.now) id) }
{
    match kind {
        ConflictKind::TwoStrong => is_strong(parts, id),
        ConflictKind::FunctionAndVariable | ConflictKind::AppendingAndPlain => true,
        ConflictKind::ElementShape | ConflictKind::Constness => appends(parts, id),
    }
}

/// Whether one alone holds.
fn are_unlike(one: bool, other: bool) -> bool
    ensures { result ≡ not (agree one other) }
{
    if one { !other } else { other }
}

/// Whether two entries that can be in a conflict of this kind are.
fn differ(parts: &[Checked], kind: ConflictKind, one: EntryId, other: EntryId) -> bool
    requires one { IsEntryId parts.now one }
    requires other { IsEntryId parts.now other }
    requires one_can { takes_part kind (seen (modules parts.now) one) ≡ true }
    requires other_can { takes_part kind (seen (modules parts.now) other) ≡ true }
    ensures { result ≡ differ (modules parts.now) kind (seen (modules parts.now) one) (seen (modules parts.now) other) }
{
    match kind {
        ConflictKind::TwoStrong => true,
        ConflictKind::FunctionAndVariable => {
            are_unlike(head_of(parts, one).variable, head_of(parts, other).variable)
        }
        ConflictKind::AppendingAndPlain => {
            are_unlike(appends(parts, one), appends(parts, other))
        }
        ConflictKind::ElementShape => !are_alike(parts, one, other),
        ConflictKind::Constness => {
            are_unlike(head_of(parts, one).constant, head_of(parts, other).constant)
        }
    }
}

/// Whether an entry is in a conflict of this kind with one that can be.
fn clashes(parts: &[Checked], kind: ConflictKind, one: EntryId, other: EntryId) -> bool
    requires one { IsEntryId parts.now one }
    requires other { IsEntryId parts.now other }
    requires one_can { takes_part kind (seen (modules parts.now) one) ≡ true }
    ensures { result ≡ (takes_part kind (seen (modules parts.now) other)
        && differ (modules parts.now) kind (seen (modules parts.now) one) (seen (modules parts.now) other)) }
{
    if !takes_part(parts, kind, other) {
        return false;
    }
    differ(parts, kind, one, other)
}

/// The first of the entries that is in a conflict of this kind with one before them.
fn clash_with(
    parts: &[Checked],
    kind: ConflictKind,
    one: EntryId,
    ids: &[EntryId],
) -> Option<EntryId>
    requires one { IsEntryId parts.now one }
    requires ids { All (IsEntryId parts.now) ids.now }
    requires one_can { takes_part kind (seen (modules parts.now) one) ≡ true }
    ensures known { IfSome result (IsEntryId parts.now) }
    ensures first { option_map (seen (modules parts.now)) result
        ≡ clash_with (modules parts.now) kind (seen (modules parts.now) one) (map (seen (modules parts.now)) ids.now) }
{
    for id in ids {
        if clashes(parts, kind, one, *id) {
            return Some(*id);
        }
    }
    None
}

/// The conflict of an entry that can be in one with the first behind it.
fn clash_behind(
    parts: &[Checked],
    kind: ConflictKind,
    one: EntryId,
    behind: &[EntryId],
) -> Option<EntryClash>
    requires one { IsEntryId parts.now one }
    requires behind { All (IsEntryId parts.now) behind.now }
    requires one_can { takes_part kind (seen (modules parts.now) one) ≡ true }
    ensures { result ≡ option_map (told_of kind) (pair_behind (modules parts.now) kind (seen (modules parts.now) one) (map (seen (modules parts.now)) behind.now)) }
{
    match clash_with(parts, kind, one, behind) {
        Some(other) => Some(EntryClash {
            kind,
            one: one.part,
            other: other.part,
        }),
        None => None,
    }
}

/// The first two entries that are in a conflict of this kind.
fn first_clash(parts: &[Checked], kind: ConflictKind, ids: &[EntryId]) -> Option<EntryClash>
    requires { All (IsEntryId parts.now) ids.now }
    ensures { result ≡ option_map (told_of kind) (first_clash (modules parts.now) kind (map (seen (modules parts.now)) ids.now)) }
{
    for index in 0..ids.len() {
        let one = ids[index];
        if takes_part(parts, kind, one) {
            return clash_behind(parts, kind, one, &ids[index + 1..]);
        }
    }
    None
}

/// The first conflict of a kind behind the first.
fn later_clash(parts: &[Checked], ids: &[EntryId]) -> Option<EntryClash>
    requires { All (IsEntryId parts.now) ids.now }
    ensures { result ≡ option_map told (conflict_among (modules parts.now) (map (seen (modules parts.now)) ids.now) later_kinds) }
{
    let kind = first_clash(parts, ConflictKind::FunctionAndVariable, ids);
    let appending = first_clash(parts, ConflictKind::AppendingAndPlain, ids);
    let shape = first_clash(parts, ConflictKind::ElementShape, ids);
    let constness = first_clash(parts, ConflictKind::Constness, ids);
    kind.or(appending.or(shape.or(constness)))
}

/// The first conflict among entries of one name, by the kinds in their order.
fn conflict_among(parts: &[Checked], ids: &[EntryId]) -> Option<EntryClash>
    requires { All (IsEntryId parts.now) ids.now }
    ensures { result ≡ option_map told (conflict_among (modules parts.now) (map (seen (modules parts.now)) ids.now) conflicts.conflict_kinds) }
{
    first_clash(parts, ConflictKind::TwoStrong, ids).or(later_clash(parts, ids))
}

/// The first conflict of a symbol.
fn conflict_of(parts: &[Checked], groups: &Groups, symbol: &Symbol) -> Option<EntryClash>
    requires { AreGroups parts.now groups.now.entries }
    ensures { option_map (told_in symbol.now) result ≡ first (conflicts.conflicts_of (modules parts.now) symbol.now) }
{
    match symbol {
        Symbol::Shared(_) => conflict_among(parts, group(groups, symbol)),
        Symbol::Local(_, _) => None,
    }
}

/// Refuses parts with their first conflict.
pub(crate) fn refuse_conflict(
    alloc: Global,
    parts: &[Checked],
    groups: &Groups,
    symbols: &[Symbol],
) -> Result<(), SymbolFault>
    requires groups { AreGroups parts.now groups.now.entries }
    requires symbols { symbols.now ≡ all_symbols (modules parts.now) }
    ensures none { OnOk result (conflicts.first_conflict (modules parts.now) ≡ None) }
    ensures fault { IfErr result (IsFault (modules parts.now)) }
{
    for symbol in symbols {
        if let Some(clash) = conflict_of(parts, groups, symbol) {
            let name = symbol.name().copy(alloc)?;
            return Err(SymbolFault::Conflict {
                kind: clash.kind,
                name,
                one: clash.one,
                other: clash.other,
            });
        }
    }
    Ok(())
}
