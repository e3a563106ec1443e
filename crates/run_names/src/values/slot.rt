//! Where a leaf of a value lies.
ghost use Rattle.std.specs.Prelude.{◌≡◌};

use ir_memory::Leaf;
use std::marker::Model;

/// A leaf of a value, and how far it lies behind the value's first byte, in bytes (LangRef, "Aggregate Types").
///
/// ```
/// let slots = [Slot::new(0, Leaf::Int(8)), Slot::new(8, Leaf::Ptr)]; // those of `{ i8, ptr }`
/// slots[1].offset() // 8
/// slots[1].leaf() // Leaf::Ptr
/// ```
#[derive(Clone, Copy, Debug, PartialEq, Eq)]
pub struct Slot {
    offset: u64,
    leaf: Leaf,
}

impl Model for Slot {
    ghost use Rattle.run_rules.specs.Leaves as leaves;

    ghost Value = { leaves.Slot };

    ghost view = { λ s. record { offset = s.offset; leaf = s.leaf } };

    ghost inverse = { λ s. record { offset = s.offset; leaf = s.leaf } };
}

impl Slot {
    /// A leaf so many bytes behind the first.
    pub fn new(offset: u64, leaf: Leaf) -> Slot
        ensures { result ≡ record { offset = offset; leaf = leaf } }
    {
        Slot { offset, leaf }
    }

    /// How far it lies behind the first byte, in bytes.
    #[inline]
    pub fn offset(self) -> u64
        ensures { result ≡ self.offset }
    {
        self.offset
    }

    /// What it is.
    #[inline]
    pub fn leaf(self) -> Leaf
        ensures { result ≡ self.leaf }
    {
        self.leaf
    }
}
