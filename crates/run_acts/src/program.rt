//! The functions of a module that is run: what its names mean, what calls ask of functions, the function types that a run has met, and the
//! bodies that are there.
//!
//! It stands on the names of `run_names`, the scopes of `run_decode::scopes`, the laws of `run_decode::suits`, the function types of `run_decode::signatures` and the
//! bodies that `run_decode` makes. It promises that a call is told exactly the function type and the leaves that a function has, that a body
//! that is there is what look-up finds in a run of the module alone, and stays there, and that function types are told apart as the
//! definitions tell them apart. Definitions: `specs/Program/Loaded`; `Look` and `Scope` of `run_rules`.
//!
//! ```
//! // of a module whose one function is `define i32 @f(i32 %a) { ret i32 %a }`
//! let mut program = Program::new(alloc, names)?;
//! program.head(id)? // FrameNeeds { signature: 0, leaves: 1 }
//! program.prepare(id)? // 0: no edge sets a leaf
//! program.body(0).action(0, 0) // an Action::Return
//! ```
mod leaves;
mod program;
mod told;

pub use program::{FrameNeeds, Program};
