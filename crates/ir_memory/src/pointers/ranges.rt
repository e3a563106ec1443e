//! What stands first in a range of addresses.
ghost use Rattle.std.specs.Prelude.{◌≡◌, ℕ, ◌<◌, ◌≤◌, IfSome, IfNone, None, Some};
ghost use Rattle.std.specs.Ordering.{nat_cmp};
ghost use Rattle.std.specs.BTreeMap as tree;

use crate::pointers::piece::PointerPiece;
use std::collections::BTreeMap;

/// The first piece of a range, and its address.
pub fn first_within(
    pieces: &BTreeMap<u64, PointerPiece>,
    from: u64,
    to: u64,
) -> Option<(u64, PointerPiece)>
    requires { from ≤ to }
    ensures within { IfSome result (λ e. (from ≤ e.0) × (e.0 < to)) }
    ensures here { IfSome result (λ e. tree.get nat_cmp pieces.now e.0 ≡ Some e.1) }
    ensures first { IfSome result (λ e. (q : ℕ) → from ≤ q → q < e.0 → tree.get nat_cmp pieces.now q ≡ None) }
    ensures none { IfNone result ((q : ℕ) → from ≤ q → q < to → tree.get nat_cmp pieces.now q ≡ None) }
{
    let (key, piece) = pieces.range(from..to).next()?;
    Some((*key, *piece))
}
