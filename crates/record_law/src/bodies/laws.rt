//! The law of bodies.
ghost use Rattle.record_law.specs.Bodies.Laws.{BodiesAreReadBack};

/// A body that fits (`BodyFits`) is read of its records, with the names of its parameters.
pub fn bodies_are_read_back()
    ensures { BodiesAreReadBack }
{}
