//! The first name that a run of one module lacks: a name without meaning that a definition uses. Such a run does not begin.
//!
//! It stands on `run_names`, which tells what names mean, on `extract_rules::kept_names`, which tells what definitions use, and on the definitions of
//! `run_rules`. It promises, for a checked module alone, exactly the name that `first_missing` of `run_rules` defines, in time linear in
//! the module. Definitions: `specs/Missing/Used`; `Plan` of `run_rules`.
//!
//! ```
//! // of `declare void @f() define i32 @main() { call void @f() ret i32 0 }`
//! let names = names_of(alloc, &checked)?;
//! missing_name(alloc, &names)? // Some(GlobalId::Function(id)), which is `@f`
//! ```
mod defined;
mod missing;

pub use missing::missing_name;
