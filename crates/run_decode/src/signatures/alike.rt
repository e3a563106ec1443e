//! Types whose shapes are equal.
ghost use Rattle.std.specs.Prelude.{◌≡◌, ◌<◌, ◌↔◌, All, IsTrue, length, map};
ghost use Rattle.run_names.specs.Shapes.Shapes.{shape_in};

use type_table::{TypeId, TypeTable};

/// Whether types have the same shapes, one after another.
pub fn are_alike(types: &TypeTable, first: &[TypeId], second: &[TypeId]) -> bool
    requires first { All (λ ty. ty < length types.now.types) first.now }
    requires second { All (λ ty. ty < length types.now.types) second.now }
    ensures { IsTrue result ↔ (map (shape_in types.now) first.now ≡ map (shape_in types.now) second.now) }
{
    // Each type of a table has a shape.
    let _count = types.type_count();
    if first.len() != second.len() {
        return false;
    }
    'types: for place in 0..first.len() {
        if !types.shape_eq(first[place], types, second[place]) {
            return false;
        }
    }
    true
}
