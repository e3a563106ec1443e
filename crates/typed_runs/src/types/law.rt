//! That good types are sound.
ghost use Rattle.typed_runs.specs.Types.Laws.{GoodTypesAreSound};

/// A good type of good structs has a shape: its leaves are integers of 1 to 128 bits and pointers, and its alignment is a power of two, at
/// most 65,536.
pub fn good_types_are_sound()
    ensures { GoodTypesAreSound }
{}
