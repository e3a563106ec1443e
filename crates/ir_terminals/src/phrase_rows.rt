//! The rows of a grammar as values: what a row's whole phrases are, with their values, what its cut phrases
//! are, how it is read, and the lemma that the reader reads the row.
//!
//! It stands on nothing and has nothing of any particular grammar. Its promise: a row that is made of the
//! primitives is read as it is defined, so all tokens are whole with one value, or have one first bad place.
//! Definitions: `specs/PhraseRows/Row`, `specs/PhraseRows/Reads`, `specs/PhraseRows/Answer`; lemmas in `proofs`.
//!
//! ```
//! -- A 0, digits 3 or 4 with a 2 between each two, and a 1: the value is the list of the digits.
//! digits = keep_second (word 0) (keep_first (separated class (word 2) digit) (word 1))
//!
//! answer digits true (0 ∷ 3 ∷ 2 ∷ 4 ∷ 1 ∷ []) ≡ Ok (3 ∷ 4 ∷ [])
//! answer digits true (0 ∷ 3 ∷ 4 ∷ 1 ∷ []) ≡ Err 2 -- the 4 is the first bad token
//! answer digits false (0 ∷ 3 ∷ 1 ∷ []) ≡ Err 3 -- something that is no token stands behind
//! ```
