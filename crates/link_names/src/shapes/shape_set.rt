//! Shapes, each once, under numbers.
ghost use Rattle.std.specs.Prelude.{◌≡◌, ◌⊎◌, [], ◌∷◌, ◌++◌, length, slice_get, Some, IfOk, OnOk, OnErr};
ghost use Rattle.link_names.specs.Shapes.Shapes.{AreApart, IsKnownShape, shape_in, shapes_of};

use crate::shapes::Labelled;
use indexmap::IndexSet;
use std::alloc::{AllocError, Global};
use std::marker::Model;

/// Shapes, each once, under the numbers in which they came, counted from 0. Each has earlier ones as its parts.
#[derive(Drop)]
pub struct ShapeSet {
    shapes: IndexSet<Labelled>,
}

impl Model for ShapeSet {
    ghost use Rattle.std.specs.Prelude.{List};
    ghost use Rattle.link_names.specs.Shapes.Shapes.{AreKnownShapes};
    ghost use Rattle.link_names.specs.declared.shapes.labelled.Labelled.{Labelled};

    ghost Value = { List Labelled };

    ghost view = { λ s. s.shapes.keys };

    ghost invariant = { λ s. AreKnownShapes 0 s.shapes.keys };
}

impl ShapeSet {
    /// No shapes.
    pub fn new(alloc: Global) -> ShapeSet
        ensures { result ≡ [] }
    {
        ShapeSet {
            shapes: IndexSet::new(alloc),
        }
    }

    /// The number of the shape: its own where it is there, else the next. Where memory runs out the shapes are as they were.
    pub fn keep(&mut self, shape: Labelled) -> Result<u64, AllocError>
        requires { IsKnownShape (length self.old) shape }
        ensures adds { OnOk result ((shapes_of self.new ≡ shapes_of self.old) ⊎ (shapes_of self.new ≡ shapes_of self.old ++ shape_in (shapes_of self.old) shape ∷ [])) }
        ensures is { IfOk result (λ number. slice_get (shapes_of self.new) number ≡ Some (shape_in (shapes_of self.old) shape)) }
        ensures err { OnErr result (self.new ≡ self.old) }
    {
        let (number, _) = self.shapes.insert_full(shape)?;
        Ok(number as u64)
    }

    /// How many shapes there are. No shape has two numbers.
    pub fn count(&self) -> u64
        ensures count { result ≡ length self.now }
        ensures shapes { length (shapes_of self.now) ≡ length self.now }
        ensures apart { AreApart (shapes_of self.now) }
    {
        self.shapes.len() as u64
    }
}
