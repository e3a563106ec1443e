//! When two lists of parts run alike.
ghost use Rattle.run_rules.specs.Same.{EqualLookUpsGiveEqualRuns};

/// Parts at whose places stand the same actions, in which each address has the same, and of which opening finds the same, run
/// alike: for all arguments, inputs and bounds the output and the end are equal.
pub fn equal_look_ups_give_equal_runs()
    ensures { EqualLookUpsGiveEqualRuns }
{}
