//! The codes of records, by their blocks.

/// The bytes `integer profile 1`, which the producer's record has.
pub const PRODUCER: [u64; 17] = [
    105, 110, 116, 101, 103, 101, 114, 32, 112, 114, 111, 102, 105, 108, 101, 32, 49,
];

/// The one record of the producer's block and of the string table's: bytes.
pub const TEXT: u32 = 1;

// The block of the module.

/// The version of the record table, first of all.
pub const VERSION: u32 = 1;

/// The name of the source file.
pub const SOURCE: u32 = 2;

/// The text of the data layout.
pub const LAYOUT: u32 = 3;

/// The text of the target triple.
pub const TRIPLE: u32 = 4;

/// A variable, declared or defined.
pub const VARIABLE: u32 = 5;

/// A function, whose body has a block of its own where it is defined.
pub const FUNCTION: u32 = 6;

/// An alias of a variable or function.
pub const ALIAS: u32 = 7;

// The block of types. Types have the codes of their kinds.

/// What a struct holds, and its name.
pub const DEFINE: u32 = 7;

// A body.

/// The names of the parameters.
pub const PARAMETERS: u32 = 1;

/// The beginning of a block, with its name.
pub const BLOCK: u32 = 2;

/// The code of an instruction or end is this and that of its opcode.
pub const FIRST_LINE: u32 = 10;
