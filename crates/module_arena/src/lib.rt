//! A module in memory: its types, constants, variables, aliases and functions under typed ids.
//!
//! It stands on `ir_base`, `ir_tables`, `type_table` and `indexmap`. It promises that an arena is a module, of which each
//! call changes the one entry that it names and nothing else, that a sealed arena is well formed and valid, and which
//! functions a run has of its own. Definitions: `specs/Module`, `WellFormed`, `Valid`, `HostRows`, `View`, `Changes`, `Known`.
//!
//! ```
//! let mut arena = Arena::new(alloc);
//! let ty = arena.add_type(IrType::Int(32))?;
//! let seven = arena.add_const(Const::Integer(7))?;
//! let id = arena.declare_variable(Variable {
//!     name,
//!     linkage: Linkage::External,
//!     constant: false,
//!     ty,
//!     alignment: None,
//!     initialiser: None,
//! })?;
//! arena.set_initialiser(id, seven); // `global i32 7` under that name
//! ```
#![tactic(auto)]

mod arena;
mod boxed;
mod checked;
mod constant;
mod copy;
mod entity;
mod entry;
mod fault;
mod host;
mod ids;
mod instruction;
mod laws;
mod names;
mod result;
mod same;

pub use arena::{Arena, COUNT_LIMIT, INDEX_LIMIT, LEAF_LIMIT};
pub use boxed::Boxed;
pub use checked::Checked;
pub use constant::{Brackets, Const, ConstAddress, ConstPair, TypedConst, TypedConstList};
pub use copy::{copied_name, same_items};
pub use entity::Entity;
pub use entry::{
    Alias, AliasType, Block, BlockList, Body, Function, GlobalId, InstList, LARGEST_PRODUCT,
    LocalName, LocalNameList, Parameter, ParameterList, Variable,
};
pub use fault::{ArenaFault, CountKind};
pub use host::{HostRow, has_short_form, host_row, host_row_fits};
pub use ids::{AliasId, BlockId, ConstId, FunctionId, ValueId, VariableId};
pub use instruction::{
    Call, Case, CaseList, Choice, Ending, Incoming, IncomingList, IndexList, Insertion, Inst,
    Operand, OperandList, Signature, Value,
};
pub use laws::alignments_are_powers_of_two;
pub use same::is_same_global;
