//! How a run ends.
use ir_base::Name;
use ir_tables::UndefinedKind;

/// The status of a program that calls `abort`: that of a shell where a signal 6 ended it.
pub const ABORTED: u8 = 134;

/// How a run ends.
///
/// ```
/// End::Exit(3) // where main gives 3, or 259
/// End::Unresolved(name) // where a name is used that is declared alone, and that no host function has
/// ```
#[derive(Drop)]
pub enum End {
    /// With a status: what main gives or `exit` is called with, modulo 256, or `ABORTED` of `abort`.
    Exit(u8),
    /// In undefined behaviour (LangRef, "Undefined Values" and each instruction's "Semantics").
    Undefined(UndefinedKind),
    /// A further instruction is due, and no step is left.
    StepsUsed,
    /// One frame more would weigh too much.
    StackLimit,
    /// One block more would make too many bytes live.
    MemoryLimit,
    /// A name is used that no part defines.
    Unresolved(Name),
    /// No part defines `main` with a type that a run can enter.
    NoMain,
}
