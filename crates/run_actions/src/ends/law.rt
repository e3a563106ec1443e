//! How runs end.
ghost use Rattle.run_actions.specs.Ends.Laws.{RunsEndSo};

/// No run that has begun ends for a name that is missing or for want of main, whatever is looked up.
pub fn runs_end_so()
    ensures { RunsEndSo }
{}
