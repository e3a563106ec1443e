//! What variables of several parts hold at first: definitions alone.
//!
//! It stands on the symbols, entries and homes of `linkage_rules`. What a run stores before its first step is defined by it, and
//! what a linked module writes as an initialiser. It promises nothing by itself: it has no calls.
//! Definitions: `specs/Contents/Contents`.
//!
//! ```
//! -- of the parts `@a = global i32 7` and `@b = global ptr @a`
//! pieces parts (Shared (codes "a")) -- one ContentPiece: Integer 7 at `i32`, of part 0
//! pieces parts (Shared (codes "b")) -- one ContentPiece: Address (codes "a") at `ptr`, of part 1
//! pieces parts (Shared (codes "c")) -- []: no part defines it
//! ```
