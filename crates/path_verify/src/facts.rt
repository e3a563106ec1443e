//! What is known of a function before its blocks are judged.

use entry_verify::constants::Judge;
use instruction_verify::last::LocalType;
use module_arena::Function;
use path_rows::Rows;

/// A function of the module, with what its blocks are judged by. It is made once a function.
#[derive(Drop)]
pub(crate) struct FunctionFacts<'a> {
    pub(crate) judge: &'a Judge<'a>,
    pub(crate) function: &'a Function,
    // A number for each constant of the module, one for two exactly where they are the same.
    pub(crate) classes: &'a [u64],
    // The type of each parameter and result, by its number.
    pub(crate) value_types: &'a Vec<LocalType>,
    // Where values are defined on every path, with nothing left to spread.
    pub(crate) rows: Rows,
}
