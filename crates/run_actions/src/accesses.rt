//! What an instruction does to the frames and to memory together, a function for each class of instruction: loads, stores, allocas
//! and moved addresses.
//!
//! It stands on the frames of `run_actions::stack`, the values in memory of `run_names::values` and the words of `run_actions`. It promises that each
//! call makes of the newest frame and of memory what the definition of actions says, whatever addresses have and whatever is due; that
//! an undefined instruction and a passed limit are told exactly where they are so; and that memory is wanted by none but the actions
//! that may. How far indices reach is told exactly. Definitions: `specs/Accesses/Done`; `Displace` of `run_rules`.
//!
//! ```
//! // of `%v = getelementptr i8, ptr %p, i8 -1`, where %p stands at place 0 of the newest frame, and %v at place 1
//! let distance = reach(Scalar::Int(255), 8, 1); // Some(-1)
//! displace(&mut stack, &memory, 1, false, &Origin::Held(0), distance);
//! ```
mod address;
mod alloca;
mod displaced;
mod distance;
mod loads;
mod slot;
mod stores;

pub use address::displace;
pub use alloca::allocate;
pub use displaced::displaced_by;
pub use distance::{reach, sum};
pub use loads::load;
pub use stores::store;
