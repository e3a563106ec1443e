//! What a run of a tool ended with: its status, and the one line that tells it on standard error.
//!
//! It stands on `command_line` (kinds of faults of words), on the kinds of faults of `bit_stream::bits`, on the counts of `module_arena`, on the kinds of conflicts of `linkage_rules` and on the
//! kinds of what is undefined of `ir_tables`. It promises the status
//! of each end, and that its line, or a front of it where a write failed, is added to standard error; the line takes no memory.
//! Definitions: `specs/Ends/Ended`.
//!
//! ```
//! status_of(&Ended::Memory) // 120
//! tell(&mut errors, words, &Ended::Memory); // adds `llvm-as: out of memory` and a line feed, where the first word is `llvm-as`
//! Digits::of(1_024).bytes() // `1024`
//! ```
mod clash;
mod clash_line;
mod digits;
mod ended;
mod error_line;
mod place_line;
mod record_line;

pub use clash::{Clash, PartName};
pub use digits::Digits;
pub use ended::{Ended, Report, status_of};
pub use error_line::tell;
