//! A law of the extracted module.
ghost use Rattle.extract_core.specs.Fates.Laws.{FatesGiveThePart};

/// What the entries of a module become by their fates is what is extracted of it.
pub fn fates_give_the_part()
    ensures { FatesGiveThePart }
{}
