//! The end of a module's block.
ghost use Rattle.std.specs.Prelude.{◌≡◌, nat_eq, nat_lt, is_some};
ghost use Rattle.record_table.specs.Records as records;
ghost use Rattle.record_read.specs.Faults.{Answers};

use crate::BitcodeFault;
use record_table::{BODY_BLOCK, MODULE_BLOCK, TYPES_BLOCK};

/// Whether nothing stands in the block, not even its version.
fn is_bare(last: u8) -> bool
    ensures { result ≡ nat_eq last 0 }
{
    last == 0
}

/// Whether the types are missing.
fn is_untyped(last: u8) -> bool
    ensures { result ≡ nat_lt last 5 }
{
    last < 5
}

/// Refuses the end of a module's block where its version, its types or a body is missing. So many records came before it, and
/// what came last stands at the place `last`.
pub fn expect_whole(last: u8, is_due: bool, at: u64) -> Result<(), BitcodeFault>
    ensures { (s : records.Sofar) → s.last ≡ last → is_some (records.first_due s.functions) ≡ is_due → s.at ≡ at → Answers (λ done t. t ≡ s) (records.ended s) result }
{
    if is_bare(last) {
        return Err(BitcodeFault::BadRecord {
            block: MODULE_BLOCK,
            index: at,
            rule: 5,
        });
    }
    if is_untyped(last) {
        return Err(BitcodeFault::BadRecord {
            block: TYPES_BLOCK,
            index: at,
            rule: 5,
        });
    }
    if is_due {
        return Err(BitcodeFault::BadRecord {
            block: BODY_BLOCK,
            index: at,
            rule: 5,
        });
    }
    Ok(())
}
