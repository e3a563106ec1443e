//! That runs stay typed.
ghost use Rattle.typed_runs.specs.Laws.{StepsStayTyped, OpeningIsTyped};

/// Where each action and each callee of a program is typed, a step of a typed state leads to a typed state or ends the run: each leaf
/// is of the kind of its place, and each pointer of a block that was made.
pub fn steps_stay_typed()
    ensures { StepsStayTyped }
{}

/// Where alignments are alignments, initialisers fit and main has its type, the state after opening is typed.
pub fn opening_is_typed()
    ensures { OpeningIsTyped }
{}
