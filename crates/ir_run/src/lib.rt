//! The machine that runs a module: opened, then run step by step, or to an end (the tool `lli`).
//!
//! It stands on every crate of runs below: the functions of `run_acts::program`, frames and the bytes on their way (`run_actions::stack`, `run_actions::passing`), one
//! instruction (`run_acts`), host functions (`run_actions::hosts`), names and contents of variables (`run_names`, `run_initial::initial`, `run_initial::contents`), the run
//! of whatever makes steps (`run_actions::loops`), and the laws of runs. It promises that a run opens, for a checked module alone, exactly as opening is defined, its constructors, its main
//! with its arguments and its order of refusals included; and the clauses of a machine: that opening, each step and each run are those of the
//! definitions, with input and output on the objects that are handed in, so that what is answered, printed and read is what the program does:
//! `Plays` of `run_rules::played`. Definitions: `specs/Constructors`, `Arguments` and `Opens` of opening; `specs/Seen`, how a clause sees a machine,
//! `Opened`, what opening gives, `Living`, what holds of a run that is not over, `Stretch`, steps that neither call nor return, `Fresh`, what holds of one that was just opened; `Machine`,
//! `Clauses`, `RunClauses`, `Opening` and `Plan` of `run_rules`.
//!
//! ```
//! // of `define i32 @main() { ret i32 3 }`
//! run_module(alloc, &checked, &words, 100, &mut input, &mut output)? // End::Exit(3)
//!
//! if let OpenedMachine::Ready(mut machine) = Machine::open(alloc, &checked, &words)? {
//!     machine.step(&mut input, &mut output)? // Some(End::Exit(3))
//! }
//! ```
#![tactic(auto)]

mod arguments;
mod beginning;
mod inside;
mod list;
mod live;
mod machine;
mod opening;
mod order;
mod running;
mod stretch;

pub use arguments::place_main;
pub use beginning::{OpenRun, open_run};
pub use machine::Machine;
pub use opening::OpenedMachine;
pub use order::{Constructor, constructors};
pub use running::run_module;
