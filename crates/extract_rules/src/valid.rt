//! What is extracted of a module that is well formed and valid is well formed and valid again.
//!
//! It stands on `module_arena` and on the definitions of `extract_rules`. It promises that laws of extraction hold for every
//! module and every selection: well-formedness, validity and the sizes of functions are kept. Definitions: `specs/Valid/Laws`.
//!
//! ```
//! -- of `define void @f() { ret void }` and `define void @g() { call void @f() ret void }`, where `@g` is selected
//! Extracted m s -- `declare void @f()` and `define void @g() { call void @f() ret void }`, well formed and valid
//! ```
ghost use Rattle.extract_rules.specs.Valid.Laws.{ExtractedIsWellFormed, ExtractedIsValid, ExtractedIsSmall};

/// What is extracted of a module is well formed and valid where the module is, and its functions are no larger (LangRef,
/// "Well-Formedness").
pub fn extraction_keeps_modules()
    ensures well_formed { ExtractedIsWellFormed }
    ensures valid { ExtractedIsValid }
    ensures small { ExtractedIsSmall }
{}
