//! The list of constructors.
ghost use Rattle.std.specs.Prelude.{◌≡◌, IfOk, Some, codes};
ghost use Rattle.std.specs.Option.{option_copied};
ghost use Rattle.module_arena.specs.declared.entry.GlobalId.TheVariants as globals;
ghost use Rattle.module_arena.specs.Lists.{global_name};
ghost use Rattle.ir_run.specs.Constructors.{AreElements, elements_of};

use ir_base::{Name, Text};
use module_arena::{Const, GlobalId, TypedConst, VariableId};
use run_names::Names;
use std::alloc::{AllocError, Global};

/// The elements of a list in brackets; None of another constant.
fn elements_of(constant: &Const) -> Option<&[TypedConst]>
    ensures { option_copied result ≡ elements_of constant.now }
{
    match constant {
        Const::Aggregate(_, elements) => Some(elements.as_slice()),
        Const::Integer(_)
        | Const::Truth(_)
        | Const::Null
        | Const::Undef
        | Const::Poison
        | Const::ZeroInitializer
        | Const::Address(_)
        | Const::ByteString(_)
        | Const::ElementAddress(_, _)
        | Const::Cast(_, _, _)
        | Const::Binary(_, _, _) => None,
    }
}

/// The elements of the list of constructors, which is that variable; None where they are not written, as in `zeroinitializer`.
fn elements_in<'n>(names: &'n Names<'_>, id: VariableId) -> Option<&'n [TypedConst]>
    requires { global_name names.now (globals.Variable id) ≡ Some (codes "llvm.global_ctors") }
    ensures { AreElements names.now (option_copied result) }
{
    let arena = names.program().arena();
    // What holds of each arena.
    let _count = arena.variable_count();
    let variable = arena.variable(id);
    let Some(initialiser) = variable.initialiser else {
        return None;
    };
    elements_of(arena.constant(initialiser))
}

/// The elements of the list of constructors; None where there is no such list. In a valid module no function and no alias has its name
/// (LangRef, "Intrinsic Global Variables").
pub(crate) fn elements<'n>(names: &'n Names<'_>, name: &Name) -> Option<&'n [TypedConst]>
    requires { name.now ≡ codes "llvm.global_ctors" }
    ensures { AreElements names.now (option_copied result) }
{
    let arena = names.program().arena();
    let Some(global) = arena.lookup(name) else {
        return None;
    };
    match global {
        GlobalId::Variable(id) => elements_in(names, id),
        GlobalId::Function(_) => None,
        GlobalId::Alias(_) => None,
    }
}

/// The name of the list of constructors.
pub(crate) fn list_name(alloc: Global) -> Result<Name, AllocError>
    ensures { IfOk result (λ name. name ≡ codes "llvm.global_ctors") }
{
    match Name::from_text(Text::from_slice(alloc, b"llvm.global_ctors")?) {
        Ok(name) => Ok(name),
        Err(_) => unreachable!(),
    }
}
