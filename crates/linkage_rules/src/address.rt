//! Addresses of variables and of functions.

/// The first address that a variable may have: that of the first block of `ir_memory`, on which this crate does not stand.
/// `run_initial::contents` is proved only where both are the same.
pub const FIRST_ADDRESS: u64 = 65_536;

/// How many addresses are left free behind a variable: as many as `ir_memory` leaves free behind a block. `run_initial::contents` is
/// proved only where both are the same.
pub const GAP: u64 = 16;

/// The address of the first function symbol. No block of `ir_memory` comes so far.
pub const FIRST_FUNCTION: u64 = 1 << 62;

/// How far the address of a function symbol is from that of the one before it.
pub const FUNCTION_STEP: u64 = 16;
