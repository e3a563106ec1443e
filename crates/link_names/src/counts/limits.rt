//! The first count of structs and entries that is past its limit.
ghost use Rattle.std.specs.Prelude.{◌≡◌, length};
ghost use Rattle.std.specs.Option.{option_map};
ghost use Rattle.linkage_rules.specs.Ids.{modules};
ghost use Rattle.linkage_rules.specs.Resolved.{AreBindings};
ghost use Rattle.linkage_rules.specs.Symbols.{symbols};
ghost use Rattle.linkage_rules.specs.Resolving.Places.{clamped};
ghost use Rattle.link_rules.specs.Counts as linking;
ghost use Rattle.link_rules.specs.Structs.{struct_map};
ghost use Rattle.link_names.specs.Counts.Told.{count_of_bytes, entry_counts, past, told};

use crate::counts::appended::first_appended;
use crate::counts::counting::{SymbolCounts, count_symbols};
use linkage_rules::Bindings;
use module_arena::{COUNT_LIMIT, Checked, CountKind};

/// What there are too many of, and how many; 2^64 - 1 where there are more.
///
/// ```
/// Count { kind: CountKind::Structs, number: 262_145 } // one struct too many
/// ```
#[derive(Clone, Copy)]
pub struct Count {
    pub kind: CountKind,
    pub number: u64,
}

/// The count, where it is past the limit of entries and structs.
fn past(kind: CountKind, number: u64) -> Option<Count>
    ensures { result ≡ past kind number }
{
    if number > COUNT_LIMIT as u64 {
        Some(Count { kind, number })
    } else {
        None
    }
}

/// What is told of aliases: so many declarations could be wanted of them, all of variables or all of functions.
fn count_of_aliases(counts: SymbolCounts) -> u64
    ensures { result ≡ clamped (linking.count_of_aliases counts.variables counts.functions counts.aliases) }
{
    if counts.aliases == 0 {
        0
    } else {
        counts
            .aliases
            .saturating_add(counts.variables.max(counts.functions))
    }
}

/// The first count of structs and entries that is past its limit, 262,144 each: structs, variables, functions, and aliases with
/// the declarations that could be wanted of them, as many as there are variables or functions. `structs` is the number of
/// structs of the module that would be made.
pub fn too_many_entries(structs: u64, counts: SymbolCounts) -> Option<Count>
    ensures { option_map told result ≡ linking.first_past linking.limit (entry_counts structs counts) }
{
    past(CountKind::Structs, structs)
        .or(past(CountKind::Variables, counts.variables))
        .or(past(CountKind::Functions, counts.functions))
        .or(past(CountKind::Aliases, count_of_aliases(counts)))
}

/// The size of an appended array, as a count.
fn count_of_bytes(size: Option<u64>) -> Option<Count>
    ensures { result ≡ count_of_bytes size }
{
    match size {
        Some(number) => Some(Count {
            kind: CountKind::AppendedBytes,
            number,
        }),
        None => None,
    }
}

/// The first count of the module that would be made of some parts which is past its limit: structs, variables, functions,
/// aliases with the declarations that could stand for them, each to 262,144, and the elements or bytes of the first appended
/// array that has more than 2^40. `structs` is the number of its structs.
pub fn too_many(parts: &[Checked], bindings: &Bindings, structs: u64) -> Option<Count>
    requires structs { structs ≡ length (struct_map (modules parts.now)) }
    requires symbols { bindings.now.symbols ≡ symbols (modules parts.now) }
    requires bindings { AreBindings parts.now bindings.now }
    ensures { option_map told result ≡ linking.too_many (modules parts.now) }
{
    let counts = count_symbols(parts, bindings);
    let appended = first_appended(parts, bindings);
    too_many_entries(structs, counts).or(count_of_bytes(appended))
}
