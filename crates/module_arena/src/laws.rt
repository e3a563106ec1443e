//! Laws of validity.
ghost use Rattle.module_arena.specs.EntryRules.{AlignmentsArePowers};

/// An alignment may be a power of two up to 65,536, and nothing else (LangRef, "Global Variables").
pub fn alignments_are_powers_of_two()
    ensures { AlignmentsArePowers }
{}
