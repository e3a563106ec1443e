//! Puts the structs of a text into an order in which each stands behind those that its fields name.
//!
//! It stands on `name_rules` and the tables of `type_table::names`. It promises that the order has exactly the structs for
//! which there is such an order, and that the measures of structs are those that the rules of names and numbers ask.
//! Definitions: `specs/Order/Dependency`, and `specs/Measured` of `name_rules`.
//!
//! ```
//! let items = read_items(alloc, b"%a = type { %b }\n%b = type { i32 }")?;
//! dependency_order(alloc, &items)? // [1, 0]: `%b` stands before `%a`
//! ```
ghost use Rattle.std.specs.Prelude.{◌<◌, ◌^◌, length, IfOk};
ghost use Rattle.ir_syntax.specs.View.{items_view};
ghost use Rattle.name_rules.specs.ModuleOf.{structs_in};
ghost use Rattle.type_judge.specs.Order.Dependency.{IsDependencyOrder};

mod likely;
mod measures;
mod mentions;
mod order;

use ir_syntax::Items;
pub use measures::StructMeasures;
pub use mentions::{all_mentions, struct_numbers};
use order::order_of;
use std::alloc::{AllocError, Global};

/// The numbers of the structs, counted from 0 in the order of the text, each behind those that its fields name; of
/// structs of one name the first alone counts. Those for which there is no such order are left out.
pub fn dependency_order(alloc: Global, items: &Items) -> Result<Vec<u32>, AllocError>
    requires { length (structs_in (items_view items.now)) < 2 ^ 32 }
    ensures { IfOk result (λ order. IsDependencyOrder (structs_in (items_view items.now)) order.items) }
{
    let numbers = struct_numbers(alloc, items)?;
    let mentions = all_mentions(alloc, &numbers, items)?;
    order_of(alloc, &mentions)
}
