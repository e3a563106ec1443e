//! What of a module is at fault where a rule of validity does not hold.
use crate::LocalName;
use ir_base::Name;

/// What of a module is at fault. It has names and no ids, so that it can be told when the arena is gone.
///
/// ```
/// Entity::Global(name) // of `@x`, where the name is `x`
/// Entity::Instruction(0, name) // the first instruction of the function of that name
/// ```
#[derive(Drop)]
pub enum Entity {
    /// The module itself.
    Module,
    /// A variable, alias or function.
    Global(Name),
    /// A block, and its function.
    Block(LocalName, Name),
    /// An instruction or the end of a block, by its number in the function counted from 0, and the function.
    Instruction(u64, Name),
}
