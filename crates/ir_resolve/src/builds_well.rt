//! Items that break no rule are such that an arena can be built from them.
//!
//! It stands on the rules of names and numbers of `name_rules`, and on what building asks for (`item_build::buildable`). It promises the one
//! law that its call names. Definitions: `specs/BuildsWell/Laws`, `AreBuildable` and `AreItemsNarrow` of `item_build::buildable`.
//!
//! ```
//! first_break items -- of "@a = global ptr @a": None, so that the items are buildable, and an entry is called `a`
//! first_break items -- of "@a = global ptr @b": a fault, since nothing is called `b`; the law says nothing of them
//! ```
mod laws;

pub use laws::items_without_a_break_are_buildable;
