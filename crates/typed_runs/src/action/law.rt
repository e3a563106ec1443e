//! That the actions of instructions are typed.
ghost use Rattle.typed_runs.specs.Action.Laws.{InstructionsAreTyped};

/// Where the values of an instruction have the leaves of their types, its result has its place, and it passes the tests of validity, its
/// action is typed: integers are computed with, addresses are pointers, and each leaf goes where one of its kind belongs.
pub fn instructions_are_typed()
    ensures { InstructionsAreTyped }
{}
