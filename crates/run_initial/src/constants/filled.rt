//! Values of which each leaf is filled alike: zeros and poison (LangRef, "Simple Constants", "Undefined Values", "Poison Values").
ghost use Rattle.std.specs.Prelude.{◌≡◌, ◌++◌, ◌∷◌, [], ◌<◌, All, OnOk, length};
ghost use Rattle.run_rules.specs.Leaves.{zero_leaf};
ghost use Rattle.run_names.specs.Shapes.Shapes.{shape_in, shapes_in};
ghost use Rattle.run_initial.specs.Constants.Filled.{all_filled, copies, filled, leaf_in};

use ir_eval::{Pointer, Scalar};
use ir_memory::Leaf;
use run_names::shapes::{TypeForm, form_of, parts};
use std::alloc::AllocError;
use type_table::{TypeId, TypeTable};

/// What stands in each leaf of a value.
///
/// ```
/// Fill::Zero // of `zeroinitializer`, and of `undef`
/// Fill::Poison // of `poison`
/// ```
#[derive(Clone, Copy)]
pub enum Fill {
    /// The number 0, or null.
    Zero,
    /// Poison, of integers and pointers alike.
    Poison,
}

/// Zero, or null.
pub(crate) fn zero(kind: Leaf) -> Scalar
    ensures { result ≡ zero_leaf kind }
{
    match kind {
        Leaf::Int(_) => Scalar::Int(0),
        Leaf::Ptr => Scalar::Ptr(Pointer {
            block: None,
            address: 0,
        }),
    }
}

/// What stands in a leaf.
pub fn leaf_in(fill: Fill, kind: Leaf) -> Scalar
    ensures { result ≡ leaf_in fill kind }
{
    match fill {
        Fill::Zero => zero(kind),
        Fill::Poison => Scalar::Poison,
    }
}

/// Appends a leaf.
pub(crate) fn push_leaf(into: &mut Vec<Scalar>, leaf: Scalar) -> Result<(), AllocError>
    ensures { OnOk result (into.new.items ≡ into.old.items ++ leaf ∷ []) }
{
    into.push(leaf)?;
    Ok(())
}

/// Appends the leaves of a value of that type, each filled so.
#[cycle(fill)]
pub(crate) fn push_filled(
    types: &TypeTable,
    fill: Fill,
    ty: TypeId,
    into: &mut Vec<Scalar>,
) -> Result<(), AllocError>
    requires { ty < length types.now.types }
    ensures { OnOk result (into.new.items ≡ into.old.items ++ filled fill (shape_in types.now ty)) }
{
    let parts = parts(types, ty);
    match form_of(types, ty) {
        TypeForm::Int(width) => push_leaf(into, leaf_in(fill, Leaf::Int(width))),
        TypeForm::Pointer => push_leaf(into, leaf_in(fill, Leaf::Ptr)),
        TypeForm::Array(count) => push_copies(types, fill, parts[0], count, into),
        TypeForm::Struct(_packed) => push_fields(types, fill, parts, into),
        TypeForm::Nothing => Ok(()),
        TypeForm::Opaque => Ok(()),
    }
}

/// The same of so many values one behind the other.
#[cycle(fill)]
fn push_copies(
    types: &TypeTable,
    fill: Fill,
    element: TypeId,
    count: u64,
    into: &mut Vec<Scalar>,
) -> Result<(), AllocError>
    requires { element < length types.now.types }
    ensures { OnOk result (into.new.items ≡ into.old.items ++ copies count (filled fill (shape_in types.now element))) }
{
    'elements: for _place in 0..count {
        let before = into.len();
        push_filled(types, fill, element, into)?;
        // There may be many values without a leaf.
        if into.len() == before {
            return Ok(());
        }
    }
    Ok(())
}

/// The same of values of those types one behind the other.
#[cycle(fill)]
fn push_fields(
    types: &TypeTable,
    fill: Fill,
    fields: &[TypeId],
    into: &mut Vec<Scalar>,
) -> Result<(), AllocError>
    requires { All (λ ty. ty < length types.now.types) fields.now }
    ensures { OnOk result (into.new.items ≡ into.old.items ++ all_filled fill (shapes_in types.now fields.now)) }
{
    'fields: for field in fields {
        push_filled(types, fill, *field, into)?;
    }
    Ok(())
}
