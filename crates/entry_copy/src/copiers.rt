//! The copiers of several arenas.
ghost use Rattle.std.specs.Prelude.{◌≡◌, ◌<◌, length, slice_get, Some};

use crate::Copier;

/// The copier of the arena with that number, counted from 0.
pub fn copier_of(copiers: &[Copier], number: u64) -> &Copier
    requires { number < length copiers.now }
    ensures { slice_get copiers.now number ≡ Some result.now }
{
    &copiers[number as usize]
}
