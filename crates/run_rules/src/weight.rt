//! How much frames may weigh.

/// How much all frames may weigh together: each the number of its leaves, and one more.
pub const WEIGHT_LIMIT: u64 = 4_194_304;
