//! The ids of blocks.
ghost use Rattle.std.specs.Prelude.{◌≡◌};
ghost use Rattle.record_table.specs.Faults as faults;

/// The block that names the producer.
pub const PRODUCER_BLOCK: u32 = 13;

/// The block of the string table.
pub const TABLE_BLOCK: u32 = 23;

/// The block of the module.
pub const MODULE_BLOCK: u32 = 8;

/// The block of its types.
pub const TYPES_BLOCK: u32 = 17;

/// The block of a function's body.
pub const BODY_BLOCK: u32 = 12;

/// Whether a block of that id has records of its own in the table.
pub fn is_block_id(id: u32) -> bool
    ensures { result ≡ faults.is_block_id id }
{
    id == PRODUCER_BLOCK
        || id == TABLE_BLOCK
        || id == MODULE_BLOCK
        || id == TYPES_BLOCK
        || id == BODY_BLOCK
}
