//! What is made of parts that are well formed and valid, and have no conflict, is well formed and valid again.
//!
//! It stands on `module_arena` and on the definitions of `link_rules`. It promises that laws of linking hold for all parts that can
//! be linked: validity is kept, where no count is passed well-formedness, and the sizes of functions. Definitions: `specs/Valid/Laws`.
//!
//! ```
//! -- of the parts `declare void @f()` and `define void @f() { ret void }`, which can be linked (`AreLinkable`)
//! first_conflict parts -- None
//! link_result parts -- `define void @f() { ret void }`, which is well formed and valid
//! -- where both parts define `@f` they have a conflict, and nothing is promised
//! ```
mod law;

pub use law::linking_keeps_modules;
