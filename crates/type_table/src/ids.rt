//! Typed ids.
ghost use Rattle.std.specs.Prelude.{◌≡◌, ℕ, nat_eq};
ghost use Rattle.std.specs.Hash as fed;
ghost use Rattle.std.specs.Cmp.Rules.{comparing, hashing};
ghost use Rattle.std.proofs.Common.{rules};

use std::hash::{Hash, Hasher};
use std::marker::Model;

/// The number of a type in its table, counted from 0 in the order of making.
///
/// ```
/// let first = TypeId::new(0); // the type that was added first
/// first.number() // 0
/// ```
#[derive(Clone, Copy)]
pub struct TypeId {
    number: u64,
}

impl Model for TypeId {
    ghost Value = { ℕ };

    ghost view = { λ id. id.number };

    ghost inverse = { λ n. record { number = n } };
}

impl TypeId {
    /// The id with that number.
    pub fn new(number: u64) -> TypeId
        ensures { result ≡ number }
    {
        TypeId { number }
    }

    /// The id's number.
    pub fn number(self) -> u64
        ensures { result ≡ self }
    {
        self.number
    }
}

impl PartialEq for TypeId {
    ghost eq = { nat_eq };

    ghost laws = { Prim.search (comparing, rules) };

    fn eq(&self, other: &TypeId) -> bool {
        self.number == other.number
    }
}

impl Eq for TypeId {
    ghost laws = { Prim.search (comparing, rules) };
}

impl Hash for TypeId {
    ghost hash_input = { fed.u64 };

    ghost respects_eq = { Prim.search (hashing, rules) };

    fn hash<H: Hasher>(&self, state: &mut H) {
        self.number.hash(state);
    }
}

/// The number of a named struct in its table, counted from 0 in the order of making.
#[derive(Clone, Copy)]
pub struct StructId {
    number: u32,
}

impl Model for StructId {
    ghost Value = { ℕ };

    ghost view = { λ id. id.number };

    ghost inverse = { λ n. record { number = n } };
}

impl StructId {
    /// The id with that number.
    pub fn new(number: u32) -> StructId
        ensures { result ≡ number }
    {
        StructId { number }
    }

    /// The id's number.
    pub fn number(self) -> u32
        ensures { result ≡ self }
    {
        self.number
    }
}

impl PartialEq for StructId {
    ghost eq = { nat_eq };

    ghost laws = { Prim.search (comparing, rules) };

    fn eq(&self, other: &StructId) -> bool {
        self.number == other.number
    }
}

impl Eq for StructId {
    ghost laws = { Prim.search (comparing, rules) };
}

impl Hash for StructId {
    ghost hash_input = { fed.u32 };

    ghost respects_eq = { Prim.search (hashing, rules) };

    fn hash<H: Hasher>(&self, state: &mut H) {
        self.number.hash(state);
    }
}
