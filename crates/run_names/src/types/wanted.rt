//! Types that the host asks for.
ghost use Rattle.std.specs.Prelude.{◌≡◌, ◌<◌, All, length, map};
ghost use Rattle.linkage_rules.specs.SameShape.{same_shape};
ghost use Rattle.run_rules.specs.Calls.{same_shape_list};
ghost use Rattle.run_names.specs.Shapes.Shapes.{shape_in};
ghost use Rattle.run_names.specs.Types.Wanted.{is_plain, leaf_of, pair_shape, shape_wanted};
ghost use Rattle.type_table.specs.Shape.{int_leaf};

use crate::shapes::{TypeForm, form_of, parts};
use ir_memory::Leaf;
use type_table::{TypeId, TypeTable};

/// A type that a host function has in its function type.
#[derive(Clone, Copy)]
pub(crate) enum Wanted {
    /// An integer, by its width in bits.
    Int(u8),
    /// A pointer.
    Ptr,
    /// The type of what gives nothing.
    Void,
    /// A struct of an integer of that width and an i1.
    Pair(u8),
}

/// Whether a form is that of a type without parts that is asked for.
#[inline(always)]
fn is_plain(form: TypeForm, wanted: Wanted) -> bool
    ensures { result ≡ is_plain form wanted }
{
    match form {
        TypeForm::Int(width) => matches!(wanted, Wanted::Int(other) if other == width),
        TypeForm::Pointer => matches!(wanted, Wanted::Ptr),
        TypeForm::Nothing => matches!(wanted, Wanted::Void),
        TypeForm::Opaque | TypeForm::Array(_) | TypeForm::Struct(_) => false,
    }
}

/// Whether a type is the integer of that width.
fn is_integer(types: &TypeTable, ty: TypeId, width: u8) -> bool
    requires { ty < length types.now.types }
    ensures { result ≡ same_shape (shape_in types.now ty) (int_leaf width) }
{
    is_plain(form_of(types, ty), Wanted::Int(width))
}

/// Whether a type is a struct of an integer of that width and an i1.
fn is_pair(types: &TypeTable, ty: TypeId, width: u8) -> bool
    requires { ty < length types.now.types }
    ensures { result ≡ same_shape (shape_in types.now ty) (pair_shape width) }
{
    let TypeForm::Struct(packed) = form_of(types, ty) else {
        return false;
    };
    if packed {
        return false;
    }
    let fields = parts(types, ty);
    if fields.len() != 2 {
        return false;
    }
    let is_number = is_integer(types, fields[0], width);
    let is_bit = is_integer(types, fields[1], 1);
    is_number & is_bit
}

/// Whether a type is that one.
#[inline(always)]
pub(crate) fn is_wanted(types: &TypeTable, ty: TypeId, wanted: Wanted) -> bool
    requires { ty < length types.now.types }
    ensures { result ≡ same_shape (shape_in types.now ty) (shape_wanted wanted) }
{
    if let Wanted::Pair(width) = wanted {
        return is_pair(types, ty, width);
    }
    is_plain(form_of(types, ty), wanted)
}

/// Whether types are those, one by one.
#[inline(always)]
pub(crate) fn are_wanted(types: &TypeTable, parameters: &[TypeId], wanted: &[Wanted]) -> bool
    requires { All (λ ty. ty < length types.now.types) parameters.now }
    ensures { result ≡ same_shape_list (map (shape_in types.now) parameters.now) (map shape_wanted wanted.now) }
{
    if parameters.len() != wanted.len() {
        return false;
    }
    for (index, parameter) in parameters.iter().enumerate() {
        if !is_wanted(types, *parameter, wanted[index]) {
            return false;
        }
    }
    true
}

/// The one leaf of an integer or a pointer; None of another type.
pub fn only_leaf(types: &TypeTable, ty: TypeId) -> Option<Leaf>
    requires { ty < length types.now.types }
    ensures { result ≡ leaf_of (shape_in types.now ty) }
{
    match form_of(types, ty) {
        TypeForm::Int(width) => Some(Leaf::Int(width)),
        TypeForm::Pointer => Some(Leaf::Ptr),
        TypeForm::Nothing => None,
        TypeForm::Opaque => None,
        TypeForm::Array(_) => None,
        TypeForm::Struct(_) => None,
    }
}
