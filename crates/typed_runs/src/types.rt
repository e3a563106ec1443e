//! What the types of a well-formed module give a run: leaves of widths that there are, alignments, and fields that lie within reach.
//!
//! It stands on the typed look-up of `typed_runs::look` and the types of `module_arena`. It promises that a good type has a shape whose leaves
//! are integers of 1 to 128 bits and pointers, and whose alignment is a power of two. Its `proofs` have the parts of a shape too.
//! What is promised is in `specs/Types/Laws`.
//!
//! ```
//! -- of the shape s of `{ i8, ptr }`
//! slots s -- record { offset = 0; leaf = leaf.Int 8 } ∷ record { offset = 8; leaf = leaf.Ptr } ∷ []
//! align s -- 8
//! ```
mod law;

pub use law::good_types_are_sound;
