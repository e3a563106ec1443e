//! Instructions and ends of blocks of canonical text on their way to a sink.
//!
//! It stands on the phrases of `ir_printer::phrases`. It promises that what is put is the phrase of the instruction or end, and nothing else.
//! Nothing takes memory. Definitions: `canonical/specs/Instructions`; `specs/Instructions/Named` (operands), `specs/Instructions/Parts` (what instructions do)
//! and `specs/Instructions/Lines`.
//!
//! ```
//! let mut out = Gathered::new();
//! put_instruction(&mut out, &mut sink, arena, function, inst, Separator::Indented); // `%b = add i32 %a, 7`
//! put_ending(&mut out, &mut sink, arena, function, ending, Separator::Line); // `ret i32 %b`
//! out.finish(&mut sink)?; // now the sink has both: a line feed and two spaces between them, and a line feed behind
//! ```
mod alignment;
mod arithmetic;
mod calls;
mod endings;
mod indices;
mod instruction;
mod memory;
mod operands;
mod operation;
mod parts;
mod phis;
mod targets;

pub use alignment::{before_alignment, put_alignment};
pub use calls::put_dotted;
pub use endings::put_ending;
pub use instruction::put_instruction;
