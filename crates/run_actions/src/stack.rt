//! The frames of the functions that are under way, with the leaves of all of them in one pool.
//!
//! It stands on the frames of `run_rules` and the leaves of `ir_eval`. It promises that each call makes of the newest frame what the
//! definition of frames says, and that want of memory, which only `enter`, `push_alloca` and `read_all` may have, leaves all frames as
//! they were.
//! Definitions: `specs/Stack/UnderWay`, what a clause sees; `specs/Stack/Origins`, the leaves of an action; `specs/Stack/Pool`, how frames lie.
//!
//! ```
//! let mut stack = Stack::new(alloc);
//! stack.enter(0, 2, &[Scalar::Int(7)], 5, 0)? // true: a frame of two leaves begins, the first of which is the argument
//! stack.read(&Origin::Held(0)) // Scalar::Int(7)
//! stack.read(&Origin::Held(1)) // Scalar::Poison
//! stack.set(1, Scalar::Int(8));
//! stack.read(&Origin::Held(1)) // Scalar::Int(8)
//! stack.leave() // 5: where the frame below wants the result
//! ```
mod mark;
mod origin;
mod phis;
mod pool;
mod stack;

pub use origin::{Move, Origin};
pub use stack::Stack;
