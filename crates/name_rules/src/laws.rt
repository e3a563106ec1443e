//! Laws of reading.
ghost use Rattle.name_rules.specs.Laws.{ReadsOnce, ToldAsWritten};

/// A text reads to at most one module.
pub fn one_module()
    ensures { ReadsOnce }
{}

/// A number is told by the digits that write it, without leading zeros.
pub fn numbers_are_told_as_written()
    ensures { ToldAsWritten }
{}
