//! The first name that a run lacks.
ghost use Rattle.std.specs.Prelude.{◌≡◌, IfOk, IfSome, find, map};
ghost use Rattle.std.specs.Option.{option_map};
ghost use Rattle.extract_rules.specs.Selected.{is_among};
ghost use Rattle.module_arena.specs.declared.entry.GlobalId.TheVariants as GlobalId;
ghost use Rattle.module_arena.specs.Known.{HasGlobal, counts};
ghost use Rattle.module_arena.specs.Lists.{name_at};
ghost use Rattle.module_arena.specs.View.{module_of};
ghost use Rattle.run_names.specs.Told.{alone};
ghost use Rattle.run_rules.specs.Plan.{first_missing};
ghost use Rattle.run_initial.specs.Missing.Used.{is_lacking, used_names};

use crate::missing::defined::used_entries;
use ir_eval::Scalar;
use module_arena::{FunctionId, GlobalId, VariableId};
use run_names::Names;
use std::alloc::{AllocError, Global};

/// Whether a global that is used or not is used and has no meaning.
fn is_lacking(names: &Names<'_>, global: GlobalId, is_used: bool) -> bool
    requires known { HasGlobal (counts names.now) global }
    requires used { is_used ≡ is_among (used_names (module_of names.now)) (name_at names.now global) }
    ensures { result ≡ is_lacking (module_of names.now) (name_at names.now global) }
{
    let has_meaning = match names.address(global) {
        Scalar::Poison => false,
        Scalar::Int(_) | Scalar::Ptr(_) => true,
    };
    !has_meaning && is_used
}

/// The variable with that number, as a global.
fn variable(number: u32) -> GlobalId
    ensures { result ≡ GlobalId.Variable number }
{
    GlobalId::Variable(VariableId::new(number))
}

/// The function with that number, as a global.
fn function(number: u32) -> GlobalId
    ensures { result ≡ GlobalId.Function number }
{
    GlobalId::Function(FunctionId::new(number))
}

/// The first variable that is lacking.
fn lacking_variable(names: &Names<'_>, used: &[bool]) -> Option<GlobalId>
    requires { used.now ≡ map (λ v. is_among (used_names (module_of names.now)) v.name) (module_of names.now).variables }
    ensures first { option_map (name_at names.now) result ≡ find (is_lacking (module_of names.now)) (map (λ v. v.name) (module_of names.now).variables) }
    ensures known { IfSome result (HasGlobal (counts names.now)) }
{
    let arena = names.program().arena();
    'variables: for number in 0..arena.variable_count() {
        let is_used = used[number as usize];
        if is_lacking(names, variable(number), is_used) {
            return Some(variable(number));
        }
    }
    None
}

/// The first function that is lacking.
fn lacking_function(names: &Names<'_>, used: &[bool]) -> Option<GlobalId>
    requires { used.now ≡ map (λ f. is_among (used_names (module_of names.now)) f.name) (module_of names.now).functions }
    ensures first { option_map (name_at names.now) result ≡ find (is_lacking (module_of names.now)) (map (λ f. f.name) (module_of names.now).functions) }
    ensures known { IfSome result (HasGlobal (counts names.now)) }
{
    let arena = names.program().arena();
    'functions: for number in 0..arena.function_count() {
        let is_used = used[number as usize];
        if is_lacking(names, function(number), is_used) {
            return Some(function(number));
        }
    }
    None
}

/// The first name without meaning that a definition uses, by its global: variables come first, then functions, in the order of the
/// module. None where each name that is used means something; what an alias is of is defined. It is refused for want of memory alone.
pub fn missing_name(alloc: Global, names: &Names<'_>) -> Result<Option<GlobalId>, AllocError>
    ensures first { IfOk result (λ global. option_map (name_at names.now) global ≡ first_missing (alone (module_of names.now))) }
    ensures known { IfOk result (λ global. IfSome global (HasGlobal (counts names.now))) }
{
    let program = names.program();
    // A checked module is valid.
    let _arena = program.arena();
    let used = used_entries(alloc, program)?;
    match lacking_variable(names, used.variables.as_slice()) {
        Some(global) => Ok(Some(global)),
        None => Ok(lacking_function(names, used.functions.as_slice())),
    }
}
