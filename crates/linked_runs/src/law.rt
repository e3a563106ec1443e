//! That linking is right.
ghost use Rattle.linked_runs.specs.Headline.{LinkedLooksAlike, LinkedRunsAsItsParts};

/// The module that is made of parts that are well formed and valid, and have no conflict, prints what its parts print side by side, and
/// ends as they do, for all arguments, inputs and bounds. At each step the two runs have the same state, since what they look up is
/// the same.
pub fn linking_is_right()
    ensures alike { LinkedLooksAlike }
    ensures runs { LinkedRunsAsItsParts }
{}
