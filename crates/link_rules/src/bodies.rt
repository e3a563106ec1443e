//! What the named structs hold in the module that is made of several (the tool `llvm-link`).
//!
//! It stands on the definitions of `link_rules`. It promises the law that structs of several parts which are one in the
//! linked module are written alike under their new names, so that its body may be copied from any of them.
//! Definitions: `specs/Bodies/Laws`, and `Structs` and `Linked` of `link_rules`.
//!
//! ```
//! -- of two parts whose structs are `%U = type { i8 }` and `%T = type { %U }`, and `%U = type { i32 }` and `%T = type { %U }`
//! struct_map parts -- `U` and `T` of the first part as they are, then those of the second as `U.1` and `T.1`
//! linked_struct parts (Local 1 (codes "T"), codes "T.1") -- `%T.1 = type { %U.1 }`
//! ```
mod law;

pub use law::structs_keep_bodies;
