//! What is asked of the variables whose names begin `llvm.`.
ghost use Rattle.std.specs.Prelude.{◌≡◌, ◌<◌, All, Some, bytes_eq, length, map};
ghost use Rattle.std.specs.List.{list_all, list_any};
ghost use Rattle.std.specs.Option.{option_map};
ghost use Rattle.type_table.specs.Types.{tree, trees, trees_at};
ghost use Rattle.module_arena.specs.Changes.{variable_in};
ghost use Rattle.module_arena.specs.EntryRules as rules;
ghost use Rattle.module_arena.specs.Known.{HasGlobal, KnowsVariable, counts};
ghost use Rattle.module_arena.specs.Lists.{name_at};
ghost use Rattle.module_arena.specs.Same.{same_type};
ghost use Rattle.module_arena.specs.View.{brackets_view, constant_at, constants_of, module_of};
ghost use Rattle.entry_verify.specs.Constants.ConstantParts.{typed_at};
ghost use Rattle.entry_verify.specs.Entries.Constructors.{are_constructor_parts, are_constructor_types, constructor_names, is_braces, is_constructor_at, is_number, leads_to_function, used_names};
ghost use Rattle.entry_verify.specs.Entries.Readings.{KnowsConstant};
ghost use Rattle.type_table.specs.Tree.{ptr};

use crate::constants::{Judge, is_llvm_name, written_number};
use crate::entries::linkages::is_appending;
use crate::entries::targets::has_function;
use crate::types::{OpenedType, TypeJudge};
use module_arena::{Arena, Brackets, Const, ConstId, GlobalId, TypedConst, Variable};
use type_table::{IrType, TypeId};

/// Whether these are the types of the fields of a constructor: i32, ptr and ptr.
fn are_constructor_types(types: &TypeJudge<'_>, fields: &[TypeId]) -> bool
    requires { All (λ ty. ty < length types.now.types) fields.now }
    ensures { result ≡ are_constructor_types (trees_at (trees types.now) fields.now) }
{
    match fields {
        [priority, called, data] => {
            let pointers = types.is_pointer(*called) & types.is_pointer(*data);
            types.is_integer_of(*priority, 32) & pointers
        }
        _ => false,
    }
}

/// Whether the type is that of a constructor, `{ i32, ptr, ptr }`.
fn is_constructor_type(judge: &Judge<'_>, ty: TypeId) -> bool
    requires { ty < length judge.now.table.types }
    ensures { result ≡ same_type (tree judge.now.table ty) rules.constructor_type }
{
    // The parts of each type of a table are earlier types.
    let table = judge.arena().types();
    let _count = table.type_count();
    let IrType::Struct(packed, fields) = table.get(ty) else {
        return false;
    };
    let suit = are_constructor_types(judge.types(), fields.as_slice());
    !*packed & suit
}

/// Whether the type is an array of constructors.
fn is_array_of_constructors(judge: &Judge<'_>, ty: TypeId) -> bool
    requires { ty < length judge.now.table.types }
    ensures { result ≡ rules.is_array_of rules.constructor_type (tree judge.now.table ty) }
{
    match judge.types().opened(ty) {
        OpenedType::Array(_, element) => is_constructor_type(judge, element),
        OpenedType::Struct(_, _) | OpenedType::Other => false,
    }
}

/// Whether the type is an array of `ptr`.
fn is_array_of_pointers(judge: &Judge<'_>, ty: TypeId) -> bool
    requires { ty < length judge.now.table.types }
    ensures { result ≡ rules.is_array_of ptr (tree judge.now.table ty) }
{
    match judge.types().opened(ty) {
        OpenedType::Array(_, element) => judge.types().is_pointer(element),
        OpenedType::Struct(_, _) | OpenedType::Other => false,
    }
}

/// Whether the entry is a function, or an alias of one.
fn leads_to_function(arena: &Arena, id: GlobalId) -> bool
    requires { HasGlobal (counts arena.now) id }
    ensures { result ≡ leads_to_function (module_of arena.now) (name_at arena.now id) }
{
    // No two entries of an arena have one name, and what each alias is of is an entry.
    let _count = arena.variable_count();
    match id {
        GlobalId::Function(_) => true,
        GlobalId::Variable(_) => false,
        GlobalId::Alias(id) => has_function(arena, arena.alias(id).target),
    }
}

/// Whether the constant with that id is the address of a function or of an alias of one, or `null`.
fn is_function_or_null(arena: &Arena, id: ConstId) -> bool
    requires { id < length arena.now.constants }
    ensures { result ≡ rules.is_function_or_null (module_of arena.now) (constant_at (constants_of arena.now) id) }
{
    // The parts of each constant of an arena are earlier constants.
    let _count = arena.variable_count();
    match arena.constant(id) {
        Const::Address(id) => leads_to_function(arena, *id),
        Const::Null => true,
        _ => false,
    }
}

/// Whether the constant with that id is a number.
fn is_number(arena: &Arena, id: ConstId) -> bool
    requires { id < length arena.now.constants }
    ensures { result ≡ is_number (constant_at (constants_of arena.now) id) }
{
    // The parts of each constant of an arena are earlier constants.
    let _count = arena.variable_count();
    written_number(arena.constant(id)).is_some()
}

/// Whether these are a priority, a function or `null`, and a pointer to data.
fn are_constructor_parts(judge: &Judge<'_>, parts: &[TypedConst]) -> bool
    requires { All (λ x. (x.ty < length judge.now.table.types) × (x.value < length judge.now.constants)) parts.now }
    ensures { result ≡ are_constructor_parts (module_of judge.now) (map (typed_at judge.now) parts.now) }
{
    let (arena, types) = (judge.arena(), judge.types());
    match parts {
        [priority, called, data] => {
            let pointers = types.is_pointer(called.ty) & types.is_pointer(data.ty);
            let number = types.is_integer_of(priority.ty, 32) & is_number(arena, priority.value);
            number & (pointers & is_function_or_null(arena, called.value))
        }
        _ => false,
    }
}

/// Whether the brackets are those of a struct that is not packed.
fn is_braces(round: Brackets) -> bool
    ensures { result ≡ is_braces (brackets_view round) }
{
    matches!(round, Brackets::Braces)
}

/// Whether the constant with that id is a constructor, `{ i32 INT, ptr F, ptr X }`.
fn is_constructor(judge: &Judge<'_>, id: ConstId) -> bool
    requires { id < length judge.now.constants }
    ensures { result ≡ rules.is_constructor (module_of judge.now) (constant_at (constants_of judge.now) id) }
{
    // The parts of each constant of an arena are earlier constants.
    let arena = judge.arena();
    let _count = arena.variable_count();
    match arena.constant(id) {
        Const::Aggregate(round, parts) => {
            let parts = are_constructor_parts(judge, parts.as_slice());
            is_braces(*round) & parts
        }
        _ => false,
    }
}

/// Whether each of these constants is a constructor.
fn are_constructors(judge: &Judge<'_>, parts: &[TypedConst]) -> bool
    requires { All (λ x. (x.ty < length judge.now.table.types) × (x.value < length judge.now.constants)) parts.now }
    ensures { result ≡ list_all (is_constructor_at judge.now) parts.now }
{
    for part in parts {
        if !(is_constructor_type(judge, part.ty) & is_constructor(judge, part.value)) {
            return false;
        }
    }
    true
}

/// Whether the constant with that id is a list of constructors, or of none.
fn list_at(judge: &Judge<'_>, id: ConstId) -> bool
    requires { id < length judge.now.constants }
    ensures { result ≡ rules.lists_constructors (module_of judge.now) (Some (constant_at (constants_of judge.now) id)) }
{
    // The parts of each constant of an arena are earlier constants.
    let arena = judge.arena();
    let _count = arena.variable_count();
    match arena.constant(id) {
        Const::Aggregate(_, elements) => are_constructors(judge, elements.as_slice()),
        Const::ZeroInitializer => true,
        _ => false,
    }
}

/// Whether the initialiser is a list of constructors, or of none.
fn lists_constructors(judge: &Judge<'_>, initialiser: Option<ConstId>) -> bool
    requires { KnowsConstant judge.now initialiser }
    ensures { result ≡ rules.lists_constructors (module_of judge.now) (option_map (constant_at (constants_of judge.now)) initialiser) }
{
    match initialiser {
        Some(id) => list_at(judge, id),
        None => false,
    }
}

/// Whether these are names of lists of constructors.
fn names_constructors(name: &[u8]) -> bool
    ensures { result ≡ list_any (bytes_eq name.now) constructor_names }
{
    (name == b"llvm.global_ctors".as_slice()) | (name == b"llvm.global_dtors".as_slice())
}

/// Whether these are names of lists of what is used.
fn names_used(name: &[u8]) -> bool
    ensures { result ≡ list_any (bytes_eq name.now) used_names }
{
    (name == b"llvm.used".as_slice()) | (name == b"llvm.compiler.used".as_slice())
}

/// Whether the variable is a list of constructors, by its name, linkage, type and initialiser.
fn is_constructor_list(judge: &Judge<'_>, variable: &Variable) -> bool
    requires { KnowsVariable (length judge.now.table.types) (length judge.now.constants) variable.now }
    ensures { result ≡ rules.is_constructor_list (module_of judge.now) (variable_in judge.now variable.now) }
{
    let elements = is_array_of_constructors(judge, variable.ty);
    let listed = lists_constructors(judge, variable.initialiser);
    let appending = is_appending(variable.linkage);
    names_constructors(variable.name.text().bytes()) & (appending & (elements & listed))
}

/// Whether the variable is a list of what is used, by its name, linkage and type.
fn is_used_list(judge: &Judge<'_>, variable: &Variable) -> bool
    requires { KnowsVariable (length judge.now.table.types) (length judge.now.constants) variable.now }
    ensures { result ≡ rules.is_used_list (variable_in judge.now variable.now) }
{
    let elements = is_array_of_pointers(judge, variable.ty);
    let appending = is_appending(variable.linkage);
    names_used(variable.name.text().bytes()) & (appending & elements)
}

/// Whether a variable whose name begins `llvm.` is an appending list of constructors (`llvm.global_ctors`,
/// `llvm.global_dtors`) or of what is used (`llvm.used`, `llvm.compiler.used`), by its type and, for constructors, its
/// initialiser.
pub fn variable_name_suits(judge: &Judge<'_>, variable: &Variable) -> bool
    requires { KnowsVariable (length judge.now.table.types) (length judge.now.constants) variable.now }
    ensures { result ≡ rules.variable_name_suits (module_of judge.now) (variable_in judge.now variable.now) }
{
    if !is_llvm_name(variable.name.text().bytes()) {
        return true;
    }
    is_constructor_list(judge, variable) | is_used_list(judge, variable)
}
