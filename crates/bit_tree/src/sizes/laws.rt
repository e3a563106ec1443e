//! The laws of small wholes.
ghost use Rattle.bit_tree.specs.Sizes.Laws.{WholesMayBeWritten, WholesAreShort, RecordsTakeBits};

/// Blocks of bytes and blocks without abbreviations may be written one behind the other, where all together have fewer than 2^37 bits.
pub fn wholes_may_be_written()
    ensures { WholesMayBeWritten }
{}

/// Each such block of bytes has fewer than 2^37 bytes.
pub fn wholes_are_short()
    ensures { WholesAreShort }
{}

/// Each record that is written without an abbreviation takes at least a bit, and one for each operand.
pub fn records_take_bits()
    ensures { RecordsTakeBits }
{}
