//! What an arena asks for where the items of a text are built in it: definitions alone.
//!
//! It stands on what `item_build::types` asks for. Definitions: `specs/Buildable/Bodies` and `specs/Buildable/Entries` for bodies and
//! entries, `specs/Buildable/Narrow` for what the phrases of a text give beyond its tree, `specs/Buildable/Laws` for a whole text.
//!
//! ```
//! IsNarrow (IntegerType place 128) -- 1 ≤ 128 and 128 ≤ 128
//! IsNarrow (ArrayType place count (IntegerType place 129)) -- 1 ≤ 129 and 129 ≤ 128: so it does not hold
//! global_names items -- of "@a = global i32 7\ndeclare void @f()": `a`, then `f`
//! CanComplete structs entries (Alias alias) -- an entry has the name of the alias's target
//! ```
