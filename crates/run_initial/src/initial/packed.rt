//! Whether the parts of a value follow one another.
ghost use Rattle.std.specs.Prelude.{◌≡◌, ◌<◌, length};
ghost use Rattle.run_initial.specs.Initial.Fresh.{is_packed};
ghost use Rattle.run_names.specs.Shapes.Shapes.{shape_in};

use run_names::shapes::{TypeForm, form_of};
use type_table::{TypeId, TypeTable};

/// Whether the parts of a value follow one another without a gap.
pub(crate) fn is_packed(types: &TypeTable, ty: TypeId) -> bool
    requires { ty < length types.now.types }
    ensures { result ≡ is_packed (shape_in types.now ty) }
{
    match form_of(types, ty) {
        TypeForm::Struct(packed) => packed,
        TypeForm::Array(_) => true,
        TypeForm::Int(_) => true,
        TypeForm::Pointer => true,
        TypeForm::Nothing => true,
        TypeForm::Opaque => true,
    }
}
