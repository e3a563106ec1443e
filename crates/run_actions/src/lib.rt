//! What an instruction does to the frames of the functions under way, a function for each class of instruction.
//!
//! It stands on the instructions of `ir_eval` and on the frames of `run_actions::stack`. It promises that each call makes of the newest frame
//! what the definition of actions says, whatever addresses have, whatever is due and whatever memory holds; and that an undefined
//! instruction, or want of memory, leaves all frames as they were. Definitions: `specs/Carried`, `specs/Operands`, `specs/Values`,
//! `specs/Edges`.
//!
//! Its modules:
//!
//! - `stack`: The frames of the functions that are under way, with the leaves of all of them in one
//!   pool.
//! - `accesses`: What an instruction does to the frames and to memory together, a function for each
//!   class of instruction: loads, stores, allocas and moved addresses.
//! - `slots`: The slots of a type: its leaves in order, and where they lie in memory.
//! - `ends`: The ends that a run can have once it has begun.
//! - `loops`: The run of whatever makes steps: one after another, to an end or a fault, or until no
//!   step is left.
//! - `passing`: What passes between a run and those who call it: the bytes of a step on their way
//!   out and in, and the end or fault that is kept.
//! - `hosts`: The calls of host functions: by a row of the host table, its arguments and memory.
//!
//! ```
//! // of `%b = add i8 %a, 7`, where %a stands at place 0 of the newest frame, and is 250
//! let left = Origin::Held(0);
//! let right = Origin::Known(Scalar::Int(7));
//! compute(&mut stack, 1, Opcode::Add, Flags::empty(), 8, &left, &right)?;
//! stack.read(&Origin::Held(1)) // Scalar::Int(1)
//! ```
#![tactic(auto)]

pub mod accesses;
mod edge;
pub mod ends;
pub mod hosts;
pub mod loops;
pub mod passing;
mod result;
mod scalars;
pub mod slots;
pub mod stack;
mod values;
mod ways;

pub use edge::{Edge, SwitchWay};
pub use result::{give, give_all, only};
pub use scalars::{compare, compute, convert};
pub use values::{Arm, FrozenLeaf, freeze, gather, select};
pub use ways::{branch, jump, switch, unreachable};
