//! Memory before a run: the constants of a module as values, and the first bytes of its variables.
//!
//! It stands on `run_names` and `run_actions`. `constants` promises the value of a constant, `initial` and `contents` the cells of an
//! initialiser, `missing` the first symbol that is used and defined nowhere. Definitions: `specs/Constants`, `specs/Initial`,
//! `specs/Contents`, `specs/Missing`.
//!
//! Its modules:
//!
//! - `constants`: The leaves of the constants of a module in a run of it alone.
//! - `initial`: Constants that are put into memory which is fresh, as the initialisers of variables
//!   are.
//! - `contents`: Memory as it is at first: the blocks of variables, and what variables hold.
//! - `missing`: The first name that a run of one module lacks: a name without meaning that a
//!   definition uses. Such a run does not begin.
#![tactic(auto)]

pub mod constants;
pub mod contents;
pub mod initial;
pub mod missing;
