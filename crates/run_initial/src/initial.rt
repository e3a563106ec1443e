//! Constants that are put into memory which is fresh, as the initialisers of variables are.
//!
//! It stands on the constants of `run_initial::constants`, the shapes of `run_names::shapes`, and on `ir_memory`. It promises that what is stored of a
//! constant is what the definition of constants gives, leaf by leaf, but for integers that are 0: as those fresh memory reads already, so
//! a value of zeros costs nothing. A store that is undefined is told as that; into a fresh block that is long enough there is none
//! (`proofs/OnInitial/Fresh`). Definitions: `specs/Initial/Fresh`, `specs/Initial/Constants`; `Leaves`, `Constant` and `Access` of `run_rules`.
//!
//! ```
//! // into a block of eight zeros
//! let target = Target { block, offset: 4 };
//! put_leaf(&mut memory, target, Leaf::Int(32), Scalar::Int(7))?; // now its bytes are 0, 0, 0, 0, 7, 0, 0 and 0
//! ```
mod constants;
mod filled;
mod leaf;
mod packed;
mod pointers;

pub use constants::{put_bytes, put_constant};
pub use leaf::{Target, put_leaf, wanting_memory};
