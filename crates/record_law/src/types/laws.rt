//! The law of the block of types.
ghost use Rattle.record_law.specs.Types.Laws.{TypesAreReadBack};

/// The types and structs of a well-formed module are read of the records that list them.
pub fn types_are_read_back()
    ensures { TypesAreReadBack }
{}
