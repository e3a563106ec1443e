//! The law of content.
ghost use Rattle.record_law.specs.Content.Laws.{ContentIsEnough};

/// What module a stream stands for, and which of its records is refused, does not depend on how its records are spelled.
pub fn content_is_enough()
    ensures { ContentIsEnough }
{}
