//! That a valid module is typed, and each state of its runs.
ghost use Rattle.typed_runs.specs.Modules.Laws.{ValidIsTyped, RunsAreTyped};

/// Look-up in a well-formed, valid module gives a typed action at each place that has one, and a typed callee at each address; and what opening
/// needs of the module is typed.
pub fn a_valid_module_is_typed()
    ensures { ValidIsTyped }
{}

/// Each state that a run of a well-formed, valid module comes to, from its opening on, is typed, whatever its arguments and its input are: each leaf
/// is of the kind of its place, and each pointer has no block or one that was made.
pub fn runs_of_a_valid_module_are_typed()
    ensures { RunsAreTyped }
{}
