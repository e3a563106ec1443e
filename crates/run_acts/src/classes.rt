//! What the flat actions of a body do to frames and to memory, a function for each group of them, with their operands taken from the pools
//! of the body.
//!
//! It stands on the flat actions of `run_decode::flat` and on the classes of `run_actions` and `run_actions::accesses`. It promises that a typed action that
//! stands at the newest frame makes of frames and memory what the definition of actions says, and that memory is wanted by none but the
//! actions that may. Calls and returns are not here. Definitions: `specs/Classes/Groups`, `specs/Classes/May`, `specs/Classes/Ends`;
//! `Flat` of `run_decode::flat`.
//!
//! ```
//! // of `%b = add i8 %a, 7`, where the newest frame stands at it, and %a, at place 0, is 250
//! let action = *body.action(stack.block(), stack.position()); // Action::Compute { to: 1, opcode, flags, width: 8, left, right }
//! act_on_binary(&mut stack, body.pools(), &action, 1, opcode, flags, 8, left, right)?;
//! stack.read(&Origin::Held(1)) // Scalar::Int(1)
//! ```
mod distance;
mod memory;
mod operand;
mod scalars;
mod values;
mod ways;

pub use memory::{act_on_address, act_on_alloca, act_on_load, act_on_store};
pub use operand::origin;
pub use scalars::{act_on_binary, act_on_cast, act_on_comparison};
pub use values::act_on_values;
pub use ways::{act_on_branch, act_on_jump, act_on_switch, act_on_unreachable};
