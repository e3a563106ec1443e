//! The items of the canonical text of a module.
//!
//! It stands on the items of `ir_syntax` and on the module of `module_arena`. It has definitions alone: `specs/Items/Parts` has
//! types, constants, instructions and blocks, `specs/Items/Items` the items of a module, and `specs/Items/Unplaced` what is left of
//! items where the places of their tokens are taken away.
//!
//! ```
//! -- of the module of `@x = global i8 7`
//! canon_items m -- one item, a Variable: its linkage is None, since external is not written, its ty IntegerType nowhere 8
//! ```
