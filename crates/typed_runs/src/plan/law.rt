//! That plans are typed.
ghost use Rattle.typed_runs.specs.Plan.Laws.{PlansAreTyped};

/// What opening needs of a well-formed, valid module is typed: there are at most 2^18 variables, each with a block and an alignment; each leaf
/// that is stored at first is of the kind of its slot; and where main lies there is a function of the type that main is called with.
pub fn plans_are_typed()
    ensures { PlansAreTyped }
{}
