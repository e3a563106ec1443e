//! The types of one part, and the structs that it is the first to have, in the module that is made of several (the tool
//! `llvm-link`).
//!
//! It stands on the copiers of `entry_copy`, on `entry_copy::structs`, and on the law of `link_rules::bodies`. It promises that each type of
//! the part is copied under the new names, that each of its structs has then the body of the linked module, that what was copied
//! before stays copied, and that only memory may be wanting. Definitions: `specs/Parts/Bodies`, `specs/Parts/Named`, and `Linked` and
//! `Structs` of `link_rules`.
//!
//! ```
//! // of the first part with `%T = type { i32 }`, where the new arena has a struct `%T.1` for it, without a body so far
//! copy_part(&mut copier, alloc, part.arena(), &mut into)?; // now it has the type `i32`, and `%T.1 = type { i32 }`
//! ```
mod part;

pub use part::copy_part;
