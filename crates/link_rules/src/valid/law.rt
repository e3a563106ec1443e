//! That linking keeps what modules must be.
ghost use Rattle.link_rules.specs.Valid.Laws.{LinkedIsValid, LinkedIsWellFormed, LinkedIsSmall};

/// What is made of parts that are well formed and valid, and have no conflict, is valid, and well formed where no count is passed
/// (LangRef, "Well-Formedness"). No function gets larger.
pub fn linking_keeps_modules()
    ensures valid { LinkedIsValid }
    ensures well_formed { LinkedIsWellFormed }
    ensures small { LinkedIsSmall }
{}
