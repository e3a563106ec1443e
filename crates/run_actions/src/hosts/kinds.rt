//! What the arguments of a call are.
ghost use Rattle.std.specs.Prelude.{◌≡◌, ◌<◌, ◌≤◌, All, drop, length, map, slice_get};
ghost use Rattle.run_names.specs.Shapes.Shapes.{shape_in};
ghost use Rattle.run_names.specs.Types.Wanted.{leaf_of};

use ir_memory::Leaf;
use run_names::types::only_leaf;
use std::marker::Model;
use type_table::{TypeId, TypeTable};

/// What each argument of a call is, where it is one leaf, by the types of the arguments. It is looked at only where
/// it is asked for.
///
/// ```
/// ArgumentKinds::new(types, shapes) // of `i32` and `{i8, i8}` what a clause sees is Some(Leaf::Int(32)) and None
/// ```
#[derive(Drop)]
pub struct ArgumentKinds<'k> {
    types: &'k TypeTable,
    shapes: &'k [TypeId],
}

impl<'k> Model for ArgumentKinds<'k> {
    ghost use Rattle.std.specs.Prelude.{◌<◌, All, List, Option, length, map};
    ghost use Rattle.ir_memory.specs.declared.leaf.Leaf.{Leaf};
    ghost use Rattle.run_names.specs.Shapes.Shapes.{shape_in};
    ghost use Rattle.run_names.specs.Types.Wanted.{leaf_of};

    ghost Value = { List (Option Leaf) };

    ghost view = { λ k. map (λ ty. leaf_of (shape_in k.types.now ty)) k.shapes.now };

    ghost invariant = { λ k. All (λ ty. ty < length k.types.now.types) k.shapes.now };
}

impl<'k> ArgumentKinds<'k> {
    /// What arguments of these types are.
    pub fn new(types: &'k TypeTable, shapes: &'k [TypeId]) -> ArgumentKinds<'k>
        requires { All (λ ty. ty < length types.now.types) shapes.now }
        ensures { result ≡ map (λ ty. leaf_of (shape_in types.now ty)) shapes.now }
    {
        ArgumentKinds { types, shapes }
    }

    /// What the first argument is.
    pub(crate) fn first(&self) -> Option<Option<Leaf>>
        ensures { result ≡ slice_get self.now 0 }
    {
        let ty = self.shapes.first()?;
        Some(only_leaf(self.types, *ty))
    }

    /// What those are that stand behind so many.
    pub(crate) fn behind(&self, count: usize) -> ArgumentKinds<'k>
        requires { count ≤ length self.now }
        ensures { result ≡ drop count self.now }
    {
        ArgumentKinds {
            types: self.types,
            shapes: &self.shapes[count..],
        }
    }
}
