//! What stands in the arena of a module.
ghost use Rattle.std.specs.Prelude.{◌≡◌, ◌<◌, length, true};
ghost use Rattle.ir_eval.specs.Value.{IsWidth};
ghost use Rattle.ir_memory.specs.Given.{IsLeaf};
ghost use Rattle.module_arena.specs.Changes.{constant_in};
ghost use Rattle.module_arena.specs.Known.{KnowsConst, counts};
ghost use Rattle.type_table.specs.Types.{tree};
ghost use Rattle.run_initial.specs.Constants.Sound.{constant_of, is_scalar, leaf_tree, width_of};

use ir_memory::Leaf;
use module_arena::{Const, ConstId};
use run_names::Names;
use run_names::shapes::{TypeForm, form_of};
use type_table::{TypeId, TypeTable};

/// The types of the module.
pub fn types_of<'n>(names: &'n Names<'_>) -> &'n TypeTable
    ensures { result.now ≡ names.now.table }
{
    names.program().arena().types()
}

/// The constant with that id.
pub fn constant_at<'n>(names: &'n Names<'_>, id: ConstId) -> &'n Const
    requires { id < length names.now.constants }
    ensures here { constant_of names.now id ≡ constant_in names.now result.now }
    ensures known { KnowsConst (length names.now.table.types) (counts names.now) id result.now }
{
    let arena = names.program().arena();
    // What holds of each arena.
    let _count = arena.variable_count();
    arena.constant(id)
}

/// What leaf a type of integers or pointers has.
pub fn kind_of(names: &Names<'_>, ty: TypeId) -> Leaf
    requires known { ty < length names.now.table.types }
    requires scalar { is_scalar (tree names.now.table ty) ≡ true }
    ensures tree { tree names.now.table ty ≡ leaf_tree result }
    ensures leaf { IsLeaf result }
{
    let types = types_of(names);
    // What holds of each table of types.
    let _count = types.type_count();
    match form_of(types, ty) {
        TypeForm::Int(width) => Leaf::Int(width),
        TypeForm::Pointer => Leaf::Ptr,
        TypeForm::Nothing => Leaf::Ptr,
        TypeForm::Opaque => Leaf::Ptr,
        TypeForm::Array(_) => Leaf::Ptr,
        TypeForm::Struct(_) => Leaf::Ptr,
    }
}

/// The width in bits with which a leaf is cast; that of a pointer is written 64.
pub(crate) fn width_of(kind: Leaf) -> u8
    requires { IsLeaf kind }
    ensures value { result ≡ width_of kind }
    ensures width { IsWidth result }
{
    match kind {
        Leaf::Int(width) => width,
        Leaf::Ptr => 64,
    }
}
