//! What a linker may not make: for each of some mistakes, parts whose module with that mistake runs otherwise than they do.
//!
//! It stands on the runs of `run_rules`. It promises that what `link` says of runs (`RunAlike`) tells each of these mistakes by itself,
//! whatever else it says of the module that it makes.
//! Definitions: `specs/Wrong/Parts`, `specs/Wrong/Laws`.
//!
//! ```
//! -- of the parts `define weak i32 @f() { ret i32 1 }`, `define i32 @f() { ret i32 2 }`, and a main that returns what `@f` does
//! Side winner_parts [] [] 100 -- record { output = []; end = Exit 2 }: the strong definition counts
//! Side (first_kept ∷ []) [] [] 100 -- record { output = []; end = Exit 1 }, so it is not RunAlike
//! ```
mod law;

pub use law::wrong_linkings_run_otherwise;
