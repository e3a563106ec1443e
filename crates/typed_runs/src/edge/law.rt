//! That the actions of ends are typed.
ghost use Rattle.typed_runs.specs.Edge.Laws.{EndsAreTyped};

/// Where the values of the end of a block have the leaves of their types, and it passes the tests of validity, its action is typed: a function
/// returns the leaves of its type, a condition is one bit, cases are numbers of the value's width, and on each edge a phi gets leaves of its kind.
pub fn ends_are_typed()
    ensures { EndsAreTyped }
{}
