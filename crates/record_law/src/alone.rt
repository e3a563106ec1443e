//! The law of records: what is written of a module spells it and no other.
//!
//! It stands on the laws of `record_law::fits`, of `bit_tree::sizes` and of `bit_tree`. It promises that of each well-formed and valid module whose
//! spelling has fewer than 2^32 words. Definitions: `Spells` and `spelling` of `record_table`, and `specs/Alone/Laws` what the law is.
//!
//! ```
//! -- of the empty module
//! spelling empty_module -- 0x42 ∷ 0x43 ∷ 0xC0 ∷ 0xDE ∷ ..: 80 bytes, which are 20 words
//! IsSpelledAlone empty_module -- holds: these bytes spell it, and no other module
//! ```
mod laws;

pub use laws::modules_are_spelled_alone;
