//! The leaves of the constants of a module in a run of it alone.
//!
//! It stands on the names of `run_names`, the shapes of `run_names::shapes`, the addresses of `run_actions::accesses` and the scalars of `ir_eval`. It
//! promises, for each constant that stands as those of a checked module do, exactly the leaves that the definition of constants gives:
//! a constant of one leaf without memory, and no other answer than those leaves but want of memory; and that each constant of a checked
//! module stands so. Definitions: `specs/Constants/Sound`, `Laws`, `Filled`, `Places`; `Constant`, `Displace` of `run_rules`.
//!
//! ```
//! leaf_of(&names, ty, id) // of `i32 7` Scalar::Int(7), of `i32 undef` Scalar::Int(0)
//! push_leaves(&names, ty, id, &mut leaves)?; // of `[2 x i8] c"ab"` Scalar::Int(97) and Scalar::Int(98)
//! leaf_in(Fill::Poison, Leaf::Ptr) // Scalar::Poison
//! ```
mod arena;
mod distance;
mod filled;
mod law;
mod leaf;
mod leaves;

pub use arena::{constant_at, kind_of, types_of};
pub use distance::number_of;
pub use filled::{Fill, leaf_in};
pub use law::constants_of_a_checked_module_can_stand;
pub use leaf::{leaf_of, pointer_leaf};
pub use leaves::push_leaves;
