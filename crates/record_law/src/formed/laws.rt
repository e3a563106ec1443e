//! The law.
ghost use Rattle.record_law.specs.Formed.Laws.{TreesStandForWellFormed};

/// A module that a tree stands for is well formed: names, numbers, references, ranges and limits are in order.
pub fn trees_stand_for_well_formed()
    ensures { TreesStandForWellFormed }
{}
