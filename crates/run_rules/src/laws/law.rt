//! How a run is made of steps.
ghost use Rattle.run_rules.specs.Laws.Laws.{StepsMakeUpARun, WritesFirst};

/// A machine each of whose steps is as the clause of `step` says makes a run as the clause of `run` says: to its end, to a fault,
/// or until no step is left.
pub fn steps_make_up_a_run()
    ensures { StepsMakeUpARun }
{}

/// What the clause of `run` says of reading gives output before input: what was put out before the getchar that gives the byte 65,536
/// places before the end of what was read, or the first byte, is written.
pub fn a_run_writes_before_it_reads()
    ensures { WritesFirst }
{}
