//! Two entries that do not go together.

use ir_base::Text;
use linkage_rules::ConflictKind;

/// An input: its number among the inputs, counted from 0, and its name.
///
/// ```
/// PartName { number: 0, name } // `a.ll`, the first input
/// ```
#[derive(Drop)]
pub struct PartName {
    pub number: u64,
    pub name: Text,
}

/// Two entries of one name that do not go together: what is wrong, their name as canonical text spells it, and the inputs that have
/// them, the earlier first.
///
/// ```
/// Clash {
///     kind: ConflictKind::TwoStrong,
///     symbol, // `@f`
///     one,    // input 0, `a.ll`
///     other,  // input 1, `b.ll`
/// } // both inputs define `@f`
/// ```
#[derive(Drop)]
pub struct Clash {
    pub kind: ConflictKind,
    pub symbol: Text,
    pub one: PartName,
    pub other: PartName,
}
