//! Laws of the definitions, each the contract of a function that does nothing.
ghost use Rattle.bit_stream.specs.Law.{RecordIsReadBack, AbbreviatedIsReadBack};

/// A record that was written without an abbreviation is read as that record, wherever it stands in a block.
pub fn record_is_read_back()
    ensures { RecordIsReadBack }
{}

/// A record that was written by an abbreviation without a blob is read as that record, wherever it stands in a block.
pub fn abbreviated_is_read_back()
    ensures { AbbreviatedIsReadBack }
{}
