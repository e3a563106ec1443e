//! One instruction of a decoded body carried out, calls and returns included, over what the groups of `run_acts::classes` do.
//!
//! It stands on the flat actions of `run_decode::flat`, the functions of `run_acts::program`, frames and output (`run_actions::stack`), what instructions do to them
//! (`run_actions`, `run_acts::classes`) and host functions (`run_actions::hosts`). It promises that functions are entered and left, host functions called and
//! what is due begun as the definitions of calls say; that an instruction makes of frames, memory and the bytes that are written what the definition
//! of its action says, whatever is due; and that memory is wanted by none but the actions that may. Want of memory in `call_address` leaves
//! frames from which no run goes on; in `call_due` and `return_value` they are as they were. Definitions: `specs/Acting`, `specs/Made`,
//! `specs/Said`, `specs/Dues`; `Act`, `Wants`, `Calls`, `Due` of `run_rules`.
//!
//! Its modules:
//!
//! - `classes`: What the flat actions of a body do to frames and to memory, a function for each
//!   group of them, with their operands taken from the pools of the body.
//! - `program`: The functions of a module that is run: what its names mean, what calls ask of
//!   functions, the function types that a run has met, and the bodies that are there.
//!
//! ```
//! // where the newest frame, the only one, is that of main, and stands at `ret i32 3`
//! act_inside(program.body(stack.function()), &mut stack, &mut memory, &mut room.leaves)? // None: it returns
//! call_or_return(&mut program, &mut stack, &mut memory, true, &mut room)? // Next::Stops(Stop::Exit(3))
//! ```
#![tactic(auto)]

mod address;
mod calls;
pub mod classes;
mod due;
mod enter;
mod host;
mod inner;
mod instruction;
mod leave;
mod next;
pub mod program;
mod room;

pub use address::{FrameCall, call_address};
pub use due::{DueCall, DueCalls, call_due};
pub use instruction::{act_inside, call_or_return, calls_or_returns};
pub use leave::return_value;
pub use next::{Next, Stop};
pub use room::Buffers;
