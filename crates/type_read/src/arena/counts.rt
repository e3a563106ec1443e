//! How many there are of what has an index.

/// How many variables, functions and aliases a module has.
///
/// ```
/// GlobalCounts { variables: 1, functions: 1, aliases: 0 } // of `@a = global i32 7` and `declare void @f()`
/// ```
#[derive(Clone, Copy)]
pub struct GlobalCounts {
    pub variables: u32,
    pub functions: u32,
    pub aliases: u32,
}

/// How many values, which are parameters and results, and how many blocks a body has.
///
/// ```
/// LocalCounts { values: 2, blocks: 1 } // of `define i32 @f(i32 %a) { %b = add i32 %a, 1 ret i32 %b }`
/// ```
#[derive(Clone, Copy)]
pub struct LocalCounts {
    pub values: u32,
    pub blocks: u32,
}
