//! Bytes with a mask: each is a byte or poison.
//!
//! It stands on std alone. Its promise: each call changes and reads a list of bytes, of which some are poison,
//! as the definition over plain lists says, and where memory is refused nothing changes. What is asked of
//! bytes without poison costs one test of the mask. Definitions: `specs/Masked/Masked`.
//!
//! ```
//! let mut bytes = MaskedBytes::new(alloc, 8)?; // eight zeros
//! bytes.write_number(0, 2, 513);
//! bytes.poison(4, 4);
//! bytes.get(0) // Some(1): the lowest byte stands first
//! bytes.get(4) // None
//! bytes.number(0, 4) // Some(513)
//! ```
mod bytes;
mod mask;
mod masked;
mod words;

pub use masked::MaskedBytes;
