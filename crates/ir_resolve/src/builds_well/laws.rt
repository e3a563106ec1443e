//! The law.
ghost use Rattle.ir_resolve.specs.BuildsWell.Laws.{CanBuild};

/// Items that are as their phrases have them, of at most 2^24 items, parameters, blocks and instructions, of which nothing breaks
/// a rule, can be built: names are there and there once, types are within the limits, and numbers and counts fit.
pub fn items_without_a_break_are_buildable()
    ensures { CanBuild }
{}
