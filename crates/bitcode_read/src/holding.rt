//! What the entries of an arena hold, set all at once: initialisers, targets and bodies, in the order of the entries.
//!
//! It stands on `module_arena`. It promises which lists the arena has then. Definitions: `specs/Holding/Holding`.
//!
//! ```
//! set_initialisers(&mut arena, &[Some(seven), None]); // of two variables the first has an initialiser then
//! ```
mod bodies;
mod setting;

pub use bodies::set_bodies;
pub use setting::{set_initialisers, set_targets};
