//! Laws of what is chosen.
ghost use Rattle.extract_rules.specs.Closure.{TimesAreEnough};

/// The functions that chosen functions call are chosen until there are no more of them.
pub fn choosing_ends()
    ensures { TimesAreEnough }
{}
