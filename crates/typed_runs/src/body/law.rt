//! That valid bodies pass what is asked.
ghost use Rattle.typed_runs.specs.Body.Laws.{BodiesAreAsked};

/// In a function of a well-formed, valid module each instruction and the end of each block has what its typed action asks for: values with the
/// leaves of their types, a place for the result, and types and tests in order.
pub fn bodies_are_asked()
    ensures { BodiesAreAsked }
{}
