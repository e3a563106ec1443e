//! How many structs, variables, functions and aliases a text has.
ghost use Rattle.std.specs.Prelude.{◌≡◌, ◌≤◌, ◌<◌, ◌+◌, ◌^◌, ◌++◌, List, Option, length, filter_map, [], ◌∷◌};
ghost use Rattle.module_arena.specs.Known.{counted_aliases};
ghost use Rattle.ir_syntax.specs.Counts.{most_counted};
ghost use Rattle.ir_syntax.specs.Tree.{ItemTree};
ghost use Rattle.ir_syntax.specs.View.{item_view, items_view};
ghost use Rattle.name_rules.specs.Breaks.{too_many};
ghost use Rattle.name_rules.specs.Demand.{Tells};
ghost use Rattle.name_rules.specs.ModuleOf.{struct_in, variable_in, alias_in, function_in};
ghost use Rattle.name_judge.specs.Counting.{AreCounts};

use ir_syntax::{Item, Items};
use module_arena::{COUNT_LIMIT, CountKind};
use name_rules::ResolveFault;

/// How many there are at most of each kind.
const MOST: u64 = COUNT_LIMIT as u64;

/// How many there are of each kind.
#[derive(Clone, Copy)]
pub(crate) struct ItemCounts {
    structs: u64,
    variables: u64,
    functions: u64,
    aliases: u64,
}

/// One item more.
fn with_item(counts: ItemCounts, item: &Item) -> ItemCounts
    requires structs { counts.structs < 2 ^ 63 }
    requires variables { counts.variables < 2 ^ 63 }
    requires functions { counts.functions < 2 ^ 63 }
    requires aliases { counts.aliases < 2 ^ 63 }
    ensures structs { result.structs ≡ counts.structs + length (filter_map struct_in (item_view item.now ∷ [])) }
    ensures variables { result.variables ≡ counts.variables + length (filter_map variable_in (item_view item.now ∷ [])) }
    ensures functions { result.functions ≡ counts.functions + length (filter_map function_in (item_view item.now ∷ [])) }
    ensures aliases { result.aliases ≡ counts.aliases + length (filter_map alias_in (item_view item.now ∷ [])) }
{
    let mut counts = counts;
    match item {
        Item::Struct { .. } => counts.structs += 1,
        Item::Variable(_) => counts.variables += 1,
        Item::Alias(_) => counts.aliases += 1,
        Item::Declaration { .. } | Item::Definition { .. } => counts.functions += 1,
        Item::SourceFilename { .. }
        | Item::DataLayout { .. }
        | Item::TargetTriple { .. }
        | Item::Attributes(_)
        | Item::Metadata(_) => {}
    }
    counts
}

/// How many there are of each kind among these items.
fn counts_of(items: &Items) -> ItemCounts
    requires few { length (items_view items.now) ≤ most_counted }
    ensures { AreCounts result (items_view items.now) }
{
    let mut counts = ItemCounts {
        structs: 0,
        variables: 0,
        functions: 0,
        aliases: 0,
    };
    'items: for item in items.as_slice() {
        counts = with_item(counts, item);
    }
    counts
}

/// How many entries aliases ask room for: with the greater of variables and functions, where there is an alias.
fn counted_aliases(aliases: u64, variables: u64, functions: u64) -> u64
    requires aliases { aliases < 2 ^ 62 }
    requires variables { variables < 2 ^ 62 }
    requires functions { functions < 2 ^ 62 }
    ensures { result ≡ counted_aliases aliases variables functions }
{
    if aliases == 0 {
        return 0;
    }
    aliases + variables.max(functions)
}

/// There are not too many of any kind.
pub(crate) fn check_counts(items: &Items) -> Result<(), ResolveFault>
    requires few { length (items_view items.now) ≤ most_counted }
    ensures { Tells (too_many (items_view items.now)) result }
{
    let counts = counts_of(items);
    if counts.structs > MOST {
        return Err(ResolveFault::TooMany {
            kind: CountKind::Structs,
            count: counts.structs,
        });
    }
    if counts.variables > MOST {
        return Err(ResolveFault::TooMany {
            kind: CountKind::Variables,
            count: counts.variables,
        });
    }
    if counts.functions > MOST {
        return Err(ResolveFault::TooMany {
            kind: CountKind::Functions,
            count: counts.functions,
        });
    }
    let aliases = counted_aliases(counts.aliases, counts.variables, counts.functions);
    if aliases > MOST {
        return Err(ResolveFault::TooMany {
            kind: CountKind::Aliases,
            count: aliases,
        });
    }
    Ok(())
}
