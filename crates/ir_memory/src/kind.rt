//! What a block is for.

/// What a block is for: a variable, which may be a constant, the stack of a function, or the heap.
///
/// ```
/// BlockKind::Variable(true) // of `@x = constant i32 7`
/// BlockKind::Variable(false) // of `@x = global i32 7`
/// ```
#[derive(Clone, Copy, PartialEq, Eq, Debug)]
pub enum BlockKind {
    /// The contents of a variable, and whether that is a constant.
    Variable(bool),
    /// What an `alloca` made.
    Stack,
    /// What `malloc` gave.
    Heap,
}
