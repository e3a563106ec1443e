//! What the actions of a function's body point to: leaves that are known, where leaves are had from, slots, ways into blocks, the terms of
//! `getelementptr`, what `select` and `freeze` choose from, and the ends of blocks.
//!
//! It stands on the pools of `run_decode::flat`, the scopes of `run_decode::scopes`, the slots of `run_actions::slots` and the shapes of `run_names::shapes`. It promises that each operand, callee,
//! part, way, term, arm, case and end that is put into the pools of a body is exactly what look-up makes of it in a run of the module alone, and that
//! pools only grow. Definitions: `specs/Operands/Steps`, what one index leads over; `specs/Operands/Open`; `specs/Operands/Suits`, what the ids of a function name;
//! `specs/Operands/Pairs`, `specs/Operands/Endings`; `Grown`, `Flat` of `run_decode::flat`; `Scopes`, `Ways` of `run_decode::scopes`; `FunctionScope`, `Resolve`, `Displace` of `run_rules`.
//!
//! ```
//! put_known(&mut pools, Scalar::Int(7))? // LeafAt::Known(0), where nothing was known before
//! put_scalar(&scope, &mut pools, operand)? // of `i32 %a`, whose leaf stands at place 1 of a frame, LeafAt::Held(1)
//! put_ending(&scope, &mut pools, from, &end)? // of `ret i32 %a` an Action::Return { value }: a span of one origin
//! ```
mod cases;
mod counted;
mod endings;
mod leaves;
mod operands;
mod pooled;
mod steps;
mod terms;
mod ways;

pub use cases::put_cases;
pub use endings::put_ending;
pub use leaves::{put_arms, put_parts};
pub use operands::{
    put_callee, put_extracted, put_inserted, put_operand, put_operands, put_scalar,
};
pub use pooled::{put_known, put_slots};
pub use terms::put_steps;
pub use ways::put_edge;
