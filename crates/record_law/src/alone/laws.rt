//! The law of records.
ghost use Rattle.record_law.specs.Alone.Laws.{ModulesAreSpelledAlone};

/// The spelling of a well-formed and valid module spells it and no other, where it has fewer than 2^32 words of 32 bits.
pub fn modules_are_spelled_alone()
    ensures { ModulesAreSpelledAlone }
{}
