//! What a name can mean.
use crate::Symbol;
use ir_base::Name;
use module_arena::GlobalId;

/// What a name of a part means.
#[derive(Drop)]
pub enum Bound {
    /// The initialiser or the body of that entry of the part with that number, counted from 0.
    Definition(u64, GlobalId),
    /// One array of the elements of all parts.
    Appended(Symbol),
    /// The host's function of that name.
    Host(Name),
    /// The null pointer: the name is nowhere defined, and each part that has it can do without it.
    Null,
    /// Nothing: a run ends where the name is needed.
    Unresolved,
}
