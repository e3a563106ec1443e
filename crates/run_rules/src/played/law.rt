//! How a run that is over was a run of its program.
ghost use Rattle.run_rules.specs.Played.Laws.{EarlyEndsArePlayed, RunsArePlayed};

/// What `run` of a machine that was just opened answers is told of the program: its end with all its output; or the output before the first
/// getchar that found what was read used up; or a front of its output. What was put out before input was read is written.
pub fn runs_are_played()
    ensures { RunsArePlayed }
{}

/// A run that has ended on opening, or for which memory was wanted there, is that of a program which has printed nothing.
pub fn early_ends_are_played()
    ensures { EarlyEndsArePlayed }
{}
