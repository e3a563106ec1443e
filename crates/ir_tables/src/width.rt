//! How wide the integers of the language are.

/// The bits of the widest integer: a width is from 1 to this. LangRef ("Integer Type") allows more; 128 is the limit of
/// the language here, and of the words it is worked in.
pub const WIDEST: u8 = 128;
