//! How large the module would be that is made of several (the tool `llvm-link`): its symbols of each kind, and the first count
//! that is past its limit.
//!
//! It stands on the definitions of `link_rules` and the symbols and extents of `linkage_rules` and `linkage_rules::resolving`. It
//! promises that exactly the first count past its limit is told, in the order structs, variables, functions, aliases, appended
//! bytes. It takes no memory. Definitions: `Counts` of `link_rules`, and `specs/Counts/Told`.
//!
//! ```
//! // of the parts `declare void @f()` and `define void @f() { ret void }`
//! let counts = count_symbols(parts, &bindings); // SymbolCounts { variables: 0, functions: 1, aliases: 0 }
//! too_many(parts, &bindings, 0) // None
//! too_many_entries(262_145, counts) // Some(Count { kind: CountKind::Structs, number: 262_145 })
//! ```
mod appended;
mod counting;
mod limits;

pub use counting::{SymbolCounts, count_symbols};
pub use limits::{Count, too_many, too_many_entries};
