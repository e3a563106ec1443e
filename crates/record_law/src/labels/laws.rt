//! The law of labels.
ghost use Rattle.record_law.specs.Labels.Laws.{LabelsAreThoseRead};

/// The values and blocks that are gathered ahead of a body are those that it declares, where it breaks no rule.
pub fn labels_are_those_read()
    ensures { LabelsAreThoseRead }
{}
