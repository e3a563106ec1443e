//! One definition that was given to a block id.
ghost use Rattle.std.specs.Prelude.{◌≡◌};
ghost use Rattle.bit_tree.specs.Starts.Rows.{row_id};

/// How many ids have one upper half.
const LOWER_HALVES: u64 = 1 << 32;

/// A definition that was given to a block id, by the bit where it starts.
#[derive(Clone, Copy)]
pub struct GivenDefinition {
    /// The upper half of the id: in two halves of 32 bits a row takes twelve bytes, and no padding.
    high: u32,
    low: u32,
    pub start: u32,
}

impl GivenDefinition {
    /// A definition for this block id, which starts at this bit.
    #[tactic(auto, unfolding(crate::specs::Starts::Rows::row_id))]
    pub fn new(id: u64, start: u32) -> Self
        ensures id { row_id result ≡ id }
        ensures start { result.start ≡ start }
    {
        GivenDefinition {
            high: (id / LOWER_HALVES) as u32,
            low: (id % LOWER_HALVES) as u32,
            start,
        }
    }

    /// The block id.
    #[tactic(auto, unfolding(crate::specs::Starts::Rows::row_id))]
    pub fn id(&self) -> u64
        ensures { result ≡ row_id self.now }
    {
        LOWER_HALVES * u64::from(self.high) + u64::from(self.low)
    }
}
