//! That look-up is typed.
ghost use Rattle.typed_runs.specs.Look.Laws.{CalleesAreTyped};

/// What an address of a well-formed, valid module has is typed: a frame of its function has the leaves of its parameters in front and a
/// first instruction, and a host function is a row of the table with its types.
pub fn what_an_address_has_is_typed()
    ensures { CalleesAreTyped }
{}
