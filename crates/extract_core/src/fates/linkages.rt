//! The linkages of what is kept or declared.
ghost use Rattle.std.specs.Prelude.{◌≡◌};
ghost use Rattle.extract_rules.specs.Extracted.{kept_linkage, declared_linkage};
ghost use Rattle.extract_core.specs.Fates.Fates.{variable_linkage, function_linkage, is_emptied};

use crate::fates::Fate;
use ir_tables::Linkage;

/// The linkage of a definition that stays: one that only its own module sees becomes external, so that what is not in the
/// part can go on to name it.
pub fn kept_linkage(linkage: Linkage) -> Linkage
    ensures { result ≡ kept_linkage linkage }
{
    match linkage {
        Linkage::Private | Linkage::Internal => Linkage::External,
        _ => linkage,
    }
}

/// The linkage of a declaration (LangRef, "Linkage Types").
fn declared_linkage(linkage: Linkage) -> Linkage
    ensures { result ≡ declared_linkage linkage }
{
    match linkage {
        Linkage::ExternWeak => Linkage::ExternWeak,
        _ => Linkage::External,
    }
}

/// The linkage of what a variable becomes. An appending one has an initialiser even where it is declared.
pub fn variable_linkage(fate: Fate, linkage: Linkage) -> Linkage
    ensures { result ≡ variable_linkage fate linkage }
{
    match (fate, linkage) {
        (Fate::Kept, _) => kept_linkage(linkage),
        (_, Linkage::Appending) => Linkage::Appending,
        _ => declared_linkage(linkage),
    }
}

/// The linkage of what a function becomes.
pub fn function_linkage(fate: Fate, linkage: Linkage) -> Linkage
    ensures { result ≡ function_linkage fate linkage }
{
    match fate {
        Fate::Kept => kept_linkage(linkage),
        Fate::Declared | Fate::LeftOut => declared_linkage(linkage),
    }
}

/// Whether a variable becomes an array of no elements: it cannot be without an initialiser, and nothing is appended by it.
pub fn is_emptied(fate: Fate, linkage: Linkage) -> bool
    ensures { result ≡ is_emptied fate linkage }
{
    matches!((fate, linkage), (Fate::Declared, Linkage::Appending))
}
