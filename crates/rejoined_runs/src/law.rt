//! That linking in two goes is linking at once.
ghost use Rattle.rejoined_runs.specs.Conflicts.{ConflictsStay};
ghost use Rattle.rejoined_runs.specs.Halves.{HalvesAgree};
ghost use Rattle.rejoined_runs.specs.Regroups.{RegroupsSymbols};
ghost use Rattle.rejoined_runs.specs.Runs.{TwoGoesLookAlike, TwoGoesRunAlike};

/// Where the first parts are well formed and valid, and have no conflict, the module that is made
/// of them can take their place: linked with other parts, it is in a conflict exactly where they
/// are. Each symbol keeps its place in the order, its definition and its meaning. So where all
/// parts are well formed and valid, and have no conflict, they print the same and end the same
/// way, the first linked before or not, for all arguments, inputs and bounds.
pub fn two_goes_link_as_one()
    ensures conflicts { ConflictsStay }
    ensures symbols { RegroupsSymbols }
    ensures alike { TwoGoesLookAlike }
    ensures runs { TwoGoesRunAlike }
{}

/// The two halves that a well-formed, valid module is cut into, what is selected and what is left,
/// have no conflict: each entry of a half was one of the module's, and each definition is kept in
/// one half.
pub fn split_modules_link_again()
    ensures agree { HalvesAgree }
{}
