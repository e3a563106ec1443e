//! The law.
ghost use Rattle.ir_resolve.specs.ReadsNarrow.Laws.{ReadsNarrow};

/// The integer types in the items of a text have 1 to 128 bits, and no store in them has a result.
pub fn what_is_read_is_narrow()
    ensures { ReadsNarrow }
{}
