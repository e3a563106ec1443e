//! The function that a run begins with.
ghost use Rattle.std.specs.Prelude.{◌≡◌, ℕ, ◌<◌, IfOk, List, codes, length};
ghost use Rattle.std.specs.Option.{option_map};
ghost use Rattle.module_arena.specs.View.{module_of};
ghost use Rattle.run_rules.specs.Plan.{main_in};
ghost use Rattle.type_table.specs.Tree.{Tree};
ghost use Rattle.type_table.specs.Types.{tree, tree_of};
ghost use Rattle.module_arena.specs.TypeTests.{is_integer_of, is_pointer};
ghost use Rattle.module_arena.specs.Known.{HasGlobal, counts};
ghost use Rattle.linkage_rules.specs.Linkages.{is_local};
ghost use Rattle.run_names.specs.Told.{alone};
ghost use Rattle.run_names.specs.Entry.Mains.{main_by_number, main_seen, shared_function, takes_words};

use crate::{function_address, is_definition};
use ir_base::{Name, Text};
use ir_tables::Linkage;
use module_arena::{Arena, Checked, FunctionId, GlobalId};
use std::alloc::{AllocError, Global};
use type_table::{IrType, TypeId, TypeTable};

/// The function that a run begins with.
///
/// ```
/// MainFunction { address, takes_arguments: true } // of `define i32 @main(i32 %argc, ptr %argv)`
/// ```
#[derive(Clone, Copy)]
pub struct MainFunction {
    /// Its address.
    pub address: u64,
    /// Whether its parameters are the count of the words and their array; else it has none.
    pub takes_arguments: bool,
}

/// Whether others share no name of this linkage (LangRef, "Linkage Types").
fn is_local(linkage: Linkage) -> bool
    ensures { result ≡ is_local linkage }
{
    matches!(linkage, Linkage::Private | Linkage::Internal)
}

/// Whether a type is the integer of that width, in bits.
fn is_integer(ty: &IrType, width: u8) -> bool
    ensures { (ns : List (List ℕ)) (done : List Tree) → result ≡ is_integer_of width (tree_of ns done ty.now) }
{
    match ty {
        IrType::Int(found) => *found == width,
        IrType::Ptr
        | IrType::Void
        | IrType::Array(_, _)
        | IrType::Struct(_, _)
        | IrType::Named(_) => false,
    }
}

/// Whether a type is ptr.
fn is_ptr(ty: &IrType) -> bool
    ensures { (ns : List (List ℕ)) (done : List Tree) → result ≡ is_pointer (tree_of ns done ty.now) }
{
    match ty {
        IrType::Ptr => true,
        IrType::Int(_)
        | IrType::Void
        | IrType::Array(_, _)
        | IrType::Struct(_, _)
        | IrType::Named(_) => false,
    }
}

/// Whether the type with that id is i32.
fn is_word(types: &TypeTable, ty: TypeId) -> bool
    requires { ty < length types.now.types }
    ensures { result ≡ is_integer_of 32 (tree types.now ty) }
{
    // What holds of each table of types.
    let _count = types.type_count();
    is_integer(types.get(ty), 32)
}

/// Whether the type with that id is ptr.
fn is_pointer(types: &TypeTable, ty: TypeId) -> bool
    requires { ty < length types.now.types }
    ensures { result ≡ is_pointer (tree types.now ty) }
{
    // What holds of each table of types.
    let _count = types.type_count();
    is_ptr(types.get(ty))
}

/// Whether a function takes the words of a run, where its type is `i32 ()` or `i32 (i32, ptr)`; None where it is another.
fn words_taken(program: &Checked, id: FunctionId) -> Option<bool>
    requires { id < length program.now.functions }
    ensures { result ≡ takes_words program.now id }
{
    let arena = program.arena();
    // The types of the functions of an arena are types of the arena.
    let _count = arena.variable_count();
    let types = arena.types();
    let function = arena.function(id);
    if function.variadic || !is_word(types, function.result) {
        return None;
    }
    match function.parameters.as_slice() {
        [] => Some(false),
        [count, words] if is_word(types, count.ty) && is_pointer(types, words.ty) => Some(true),
        _ => None,
    }
}

/// The function as main, where it has a body that counts and a type that a run can enter.
fn main_by(program: &Checked, id: FunctionId) -> Option<MainFunction>
    requires { id < length program.now.functions }
    ensures { option_map main_seen result ≡ main_by_number program.now id }
{
    let function = program.arena().function(id);
    if !is_definition(function.linkage, function.body.is_some()) {
        return None;
    }
    let takes_arguments = words_taken(program, id)?;
    Some(MainFunction {
        address: function_address(id.number()),
        takes_arguments,
    })
}

/// The function that a name which others share is of, itself or through an alias.
fn shared_function(arena: &Arena, global: GlobalId) -> Option<FunctionId>
    requires { HasGlobal (counts arena.now) global }
    ensures { result ≡ shared_function arena.now global }
{
    let (linkage, function) = match global {
        GlobalId::Variable(_) => return None,
        GlobalId::Function(id) => (arena.function(id).linkage, id),
        GlobalId::Alias(id) => match arena.alias(id).target {
            Some(GlobalId::Function(target)) => (arena.alias(id).linkage, target),
            Some(GlobalId::Variable(_) | GlobalId::Alias(_)) | None => return None,
        },
    };
    if is_local(linkage) {
        return None;
    }
    Some(function)
}

/// The function that the name `main` is bound to, if a run can enter it.
fn main_named(program: &Checked, name: &Name) -> Option<MainFunction>
    requires { name.now ≡ codes "main" }
    ensures { option_map main_seen result ≡ main_in (alone (module_of program.now)) }
{
    let arena = program.arena();
    // What an alias of an arena is of is an entry of the arena.
    let _count = arena.variable_count();
    let Some(global) = arena.lookup(name) else {
        return None;
    };
    match shared_function(arena, global) {
        Some(id) => main_by(program, id),
        None => None,
    }
}

/// The name `main`.
fn main_name(alloc: Global) -> Result<Name, AllocError>
    ensures { IfOk result (λ name. name ≡ codes "main") }
{
    match Name::from_text(Text::from_slice(alloc, b"main")?) {
        Ok(name) => Ok(name),
        Err(_) => unreachable!(),
    }
}

/// The function that a run of the module begins with: the one that the name `main`, where it is not local, is bound to, itself or through
/// an alias. None where there is none with a body that counts and a type that a run can enter, `i32 ()` or `i32 (i32, ptr)`. It is refused
/// for want of memory alone.
pub fn main_of(alloc: Global, program: &Checked) -> Result<Option<MainFunction>, AllocError>
    ensures { IfOk result (λ main. option_map main_seen main ≡ main_in (alone (module_of program.now))) }
{
    let name = main_name(alloc)?;
    Ok(main_named(program, &name))
}
