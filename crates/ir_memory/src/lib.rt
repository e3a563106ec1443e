//! The memory of a run: blocks of bytes with addresses that are never used again.
//!
//! It stands on the values of `ir_eval`, the kinds of undefined behaviour of `ir_tables`, `ir_memory::masked` and
//! `ir_memory::pointers`. Its promise: each call changes memory and answers as the definition over plain lists of
//! blocks and cells says, and a call that refuses leaves memory as it was. Definitions: `specs/Cell`,
//! `specs/MemoryBlock`, `specs/Memory`; what may be handed in: `specs/Given`; what an answer says: `specs/Answer`; bytes
//! that are told as they lie: `specs/Plain`.
//!
//! Its modules:
//!
//! - `masked`: Bytes with a mask: each is a byte or poison.
//! - `pointers`: The pieces of pointers in memory, those of eight addresses each in a slot of an
//!   ordered map.
//!
//! ```
//! let mut memory = Memory::new(alloc);
//! let block = memory.add_block(8, 4, BlockKind::Stack)?; // eight zeros at 65,536
//! let address = Scalar::Ptr(block);
//! memory.store(address, Leaf::Int(32), 4, Scalar::Int(513))?;
//! memory.load(address, Leaf::Int(8), 1) // Ok(Scalar::Int(1)): the lowest byte stands first
//! memory.plain_bytes(block) // Some(&[1, 2, 0, 0, 0, 0, 0, 0])
//! memory.load(address, Leaf::Int(128), 1) // Err(UndefinedKind::OutsideBlock)
//! memory.end_block(address, BlockKind::Stack)?;
//! memory.load(address, Leaf::Int(32), 4) // Err(UndefinedKind::EndedBlock)
//! ```
#![tactic(auto)]

mod access;
mod cell;
mod copy;
mod fault;
mod kept;
mod kind;
mod leaf;
pub mod masked;
mod memory;
mod page;
pub mod pointers;
mod read;
mod spare;
mod starts;
mod table;
mod write;

pub use fault::MemoryFault;
pub use kind::BlockKind;
pub use leaf::Leaf;
pub use memory::{BYTE_LIMIT, FIRST_ADDRESS, Memory};
