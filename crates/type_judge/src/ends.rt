//! Tells which structs of a text contain themselves by value.
//!
//! It stands on the mentions of `type_judge::order` and the rules of `name_rules`. It promises that a struct is told to contain
//! itself exactly where a field holds it by value, through however many other structs. Definitions: `specs/Ends/Mentioning`, and
//! `specs/Ends/Reach` for the search and the ranks that mostly spare it.
//!
//! ```
//! let items = read_items(alloc, b"%a = type { [2 x %b] }\n%b = type { %a }")?;
//! let mentions = StructMentions::of_items(alloc, &items)?;
//! mentions.contains_itself(alloc, b"a")? // true
//! ```
mod mentions;
mod ranks;
mod search;
mod walk;

pub use mentions::StructMentions;
