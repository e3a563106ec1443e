//! Whole runs of one module: what a machine's answer says of what the program prints, how it ends and what it has of its input.
//!
//! It stands on the runs and machines of `run_rules` and the laws of `run_rules::laws`. It promises that what `run` of a machine that was just opened
//! answers is told of the program itself: its end with all its output, the output before the getchar whose read failed, or a front; and that
//! what was put out before input was read is written. Definitions: `specs/Played/Played`, `specs/Played/Laws`.
//!
//! ```
//! -- of a program p: `declare i32 @putchar(i32) define i32 @main() { %1 = call i32 @putchar(i32 97) ret i32 0 }`
//! outcome_of p [] -- record { output = 97 ∷ []; end = Exit 0 }, where p.bound is 2 or more
//! Plays p (Ok (Exit 0)) before after -- so the byte 97 was added to what the sink had taken
//! Plays p (Err WriteFault) before after -- so a front of the output was added: nothing, or that byte
//! ```
mod law;

pub use law::{early_ends_are_played, runs_are_played};
