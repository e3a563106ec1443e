//! How many blocks, records and definitions there are.
ghost use Rattle.std.specs.Prelude.{◌≡◌, ◌+◌, ◌*◌, IfOk};
ghost use Rattle.bit_dump.specs.Tally.{no_counts, one_more};
ghost use Rattle.bit_dump.specs.Halves.{no_half, whole};

use std::alloc::AllocError;

/// How many blocks, records, and definitions of abbreviations.
///
/// ```
/// StreamCounts { blocks: 4, records: 3, abbreviations: 2 } // of the bitcode of the empty module
/// ```
#[derive(Clone, Copy)]
pub struct StreamCounts {
    pub blocks: u32,
    pub records: u32,
    pub abbreviations: u32,
}

/// What is counted.
#[derive(Clone, Copy)]
pub enum CountedKind {
    /// Blocks.
    Blocks,
    /// Records.
    Records,
    /// Definitions of abbreviations.
    Abbreviations,
}

/// One more. A count that 32 bits do not hold is of more than a stream of 2^24 bytes has, and there is no memory for it.
fn next(count: u32) -> Result<u32, AllocError>
    ensures { IfOk result (λ next. next ≡ count + 1) }
{
    count.checked_add(1).ok_or(AllocError)
}

impl StreamCounts {
    /// None of them.
    pub fn none() -> Self
        ensures { result ≡ no_counts }
    {
        StreamCounts {
            blocks: 0,
            records: 0,
            abbreviations: 0,
        }
    }

    /// One more of a kind.
    pub fn with(self, kind: CountedKind) -> Result<Self, AllocError>
        ensures { IfOk result (λ counts. counts ≡ one_more kind self) }
    {
        let mut counts = self;
        match kind {
            CountedKind::Blocks => counts.blocks = next(counts.blocks)?,
            CountedKind::Records => counts.records = next(counts.records)?,
            CountedKind::Abbreviations => counts.abbreviations = next(counts.abbreviations)?,
        }
        Ok(counts)
    }
}

/// The lower or the upper sixteen bits of counts.
#[derive(Clone, Copy)]
pub struct Half {
    pub blocks: u16,
    pub records: u16,
    pub abbreviations: u16,
}

/// The lower and the upper half of a count.
fn halves(count: u32) -> (u16, u16)
    ensures { result.0 + 65536 * result.1 ≡ count }
{
    ((count % 65536) as u16, (count / 65536) as u16)
}

impl Half {
    /// None of a half.
    pub fn none() -> Self
        ensures { result ≡ no_half }
    {
        Half {
            blocks: 0,
            records: 0,
            abbreviations: 0,
        }
    }
}

impl StreamCounts {
    /// The lower and the upper half of the counts.
    pub fn halves(self) -> (Half, Half)
        ensures { whole result.0 result.1 ≡ self }
    {
        let (blocks, upper_blocks) = halves(self.blocks);
        let (records, upper_records) = halves(self.records);
        let (abbreviations, upper_abbreviations) = halves(self.abbreviations);
        let lower = Half {
            blocks,
            records,
            abbreviations,
        };
        let upper = Half {
            blocks: upper_blocks,
            records: upper_records,
            abbreviations: upper_abbreviations,
        };
        (lower, upper)
    }

    /// Counts of these halves.
    pub fn of_halves(lower: Half, upper: Half) -> Self
        ensures { result ≡ whole lower upper }
    {
        StreamCounts {
            blocks: u32::from(lower.blocks) + 65536 * u32::from(upper.blocks),
            records: u32::from(lower.records) + 65536 * u32::from(upper.records),
            abbreviations: u32::from(lower.abbreviations) + 65536 * u32::from(upper.abbreviations),
        }
    }
}
