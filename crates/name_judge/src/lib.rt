//! Judges the items of a text by the rules of names and numbers.
//!
//! It stands on the judges of types, constants and names of `type_judge`, on `name_judge::locals` for the bodies of functions, and
//! on `type_judge::ends` for structs that contain themselves. It promises, want of memory aside, that items are let through exactly
//! where they break no rule, and that else the first break is told: too many of a kind, else the first demand in the order of
//! the text.
//! Definitions: `specs/Seen`; the breaks are those of `name_rules`, `specs/Breaks`.
//!
//! Its modules:
//!
//! - `locals`: Judges the functions that a text defines: tells the first demand, in the order of
//!   the text, that does not hold.
//!
//! ```
//! let items = read_items(alloc, b"@a = global i32 7\n@a = global i32 8")?;
//! judge(alloc, &items) // Err(ResolveFault::Duplicate { place, first }): place is 2:1, first is 1:1
//! ```
#![tactic(auto)]

ghost use Rattle.std.specs.Prelude.{◌≤◌};
ghost use Rattle.ir_syntax.specs.Counts.{counted, most_counted};
ghost use Rattle.ir_syntax.specs.View.{items_view};
ghost use Rattle.name_rules.specs.Breaks.{first_break};
ghost use Rattle.name_rules.specs.Demand.{Tells};

mod counts;
mod earlier;
mod functions;
mod globals;
mod items;
pub mod locals;
mod seen;
mod structs;

use counts::check_counts;
use ir_syntax::Items;
use items::check_items;
use name_rules::ResolveFault;
use std::alloc::Global;

/// Judges the items of a text by the rules of names and numbers, and tells the first break.
///
/// There may be at most 2^24 items, parameters, blocks and instructions in all, as those of a text that is read are.
///
/// # Errors
///
/// Exactly the first break, where there is one; or want of memory.
pub fn judge(alloc: Global, items: &Items) -> Result<(), ResolveFault>
    requires few { counted (items_view items.now) ≤ most_counted }
    ensures { Tells (first_break (items_view items.now)) result }
{
    check_counts(items)?;
    check_items(alloc, items)
}
