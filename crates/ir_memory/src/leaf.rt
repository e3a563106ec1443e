//! What a load or a store moves.
ghost use Rattle.std.specs.Prelude.{◌≡◌, ◌≤◌};
ghost use Rattle.ir_memory.specs.Cell as of;
ghost use Rattle.ir_memory.specs.Given.{IsLeaf};

/// What a load or a store moves: an integer of a width in bits, or a pointer.
///
/// ```
/// Leaf::Int(17).size() // 3
/// Leaf::Ptr.size() // 8
/// ```
#[derive(Clone, Copy, PartialEq, Eq, Debug)]
pub enum Leaf {
    /// An integer of a width in bits, from 1 to 128.
    Int(u8),
    /// A pointer, which takes 8 bytes.
    Ptr,
}

impl Leaf {
    /// How many bytes the leaf takes in memory.
    #[inline(always)]
    pub fn size(self) -> usize
        requires { IsLeaf self }
        ensures value { result ≡ of.size self }
        ensures some { 1 ≤ result }
        ensures most { result ≤ 16 }
    {
        match self {
            Leaf::Int(width) => usize::from(width).div_ceil(8),
            Leaf::Ptr => 8,
        }
    }
}
