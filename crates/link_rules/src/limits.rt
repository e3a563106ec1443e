//! How large the module may be that is made of some parts.

/// How long an appended array is at most, in elements and in bytes.
pub const APPENDED_LIMIT: u64 = 1 << 40;
