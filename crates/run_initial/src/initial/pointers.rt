//! Which values have pointers.
ghost use Rattle.std.specs.Prelude.{◌≡◌, ◌<◌, All, length};
ghost use Rattle.run_names.specs.Shapes.Shapes.{shape_in, shapes_in};
ghost use Rattle.run_initial.specs.Initial.Fresh.{has_pointer, have_pointers};

use run_names::shapes::{TypeForm, form_of, parts};
use type_table::{TypeId, TypeTable};

/// Whether a value of that type has a pointer among its leaves.
#[cycle(pointers)]
pub(crate) fn has_pointer(types: &TypeTable, ty: TypeId) -> bool
    requires { ty < length types.now.types }
    ensures { result ≡ has_pointer (shape_in types.now ty) }
{
    let parts = parts(types, ty);
    match form_of(types, ty) {
        TypeForm::Pointer => true,
        TypeForm::Array(count) => count != 0 && has_pointer(types, parts[0]),
        TypeForm::Struct(_packed) => have_pointers(types, parts),
        TypeForm::Int(_) => false,
        TypeForm::Nothing => false,
        TypeForm::Opaque => false,
    }
}

/// Whether a value of one of these types has.
#[cycle(pointers)]
fn have_pointers(types: &TypeTable, parts: &[TypeId]) -> bool
    requires { All (λ ty. ty < length types.now.types) parts.now }
    ensures { result ≡ have_pointers (shapes_in types.now parts.now) }
{
    'parts: for part in parts {
        if has_pointer(types, *part) {
            return true;
        }
    }
    false
}
