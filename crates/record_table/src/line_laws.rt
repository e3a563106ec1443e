//! The laws of constants and lines as operands.
ghost use Rattle.record_table.specs.LineLaws.{ConstantsAreReadBack, ValuesAreReadBack, InstructionsAreReadBack, EndingsAreReadBack};

/// A constant that fits its type (`Fits`) is read of the operands that are written for it.
pub fn constants_are_read_back()
    ensures { ConstantsAreReadBack }
{}

/// A value that fits its type (`ValueFits`), a local or a constant, is read back.
pub fn values_are_read_back()
    ensures { ValuesAreReadBack }
{}

/// An instruction that fits where it stands (`InstructionFits`) is read back by its opcode.
pub fn instructions_are_read_back()
    ensures { InstructionsAreReadBack }
{}

/// An end of a block that fits (`EndingFits`) is read back by its opcode.
pub fn endings_are_read_back()
    ensures { EndingsAreReadBack }
{}
