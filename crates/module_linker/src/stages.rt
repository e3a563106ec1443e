//! What a module that is made of several is while it is made (the tool `llvm-link`): with the types alone, with its entries
//! declared, and while they are defined one after another.
//!
//! It stands on the linked module of `link_rules` and on the copiers of `entry_copy`, one a part. It has definitions alone: `specs/Stages/Parts` says
//! which parts can be linked, `specs/Stages/Ground` what stands before the entries, `specs/Stages/Declared`, `specs/Stages/Definitions` and `specs/Stages/NewIds` what the entries
//! are, `specs/Stages/Copied` and `specs/Stages/Filled` what defines them.
//!
//! ```
//! -- of the parts `declare void @f()` and `define void @f() { ret void }`
//! ground parts -- a module without entries
//! declared parts -- `declare void @f()`
//! ids_of parts -- Function 0 ∷ []
//! filled_to 1 parts -- `define void @f() { ret void }`, which is `link_result parts`
//! ```
