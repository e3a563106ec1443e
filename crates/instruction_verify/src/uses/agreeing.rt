//! Whether entries of a phi for one block are equal.
ghost use Rattle.std.specs.Prelude.{◌≡◌, ◌<◌, ◌==◌, ◌&&◌, ◌||◌, All, length, nat_lt, not};
ghost use Rattle.instruction_verify.specs.Uses.Classes.{HasClass};
ghost use Rattle.instruction_verify.specs.Uses.Agreeing.{agree_at, entries_agree_by, same_by};

use module_arena::{Incoming, Value};

/// Whether two values are the same: one local, or constants of one class.
fn is_same_value(classes: &[u64], left: Value, right: Value) -> bool
    requires left { HasClass (length classes.now) left }
    requires right { HasClass (length classes.now) right }
    ensures { result ≡ same_by classes.now left right }
{
    match left {
        Value::Local(id) => match right {
            Value::Local(other) => id.number() == other.number(),
            Value::Known(_) => false,
        },
        Value::Known(id) => match right {
            Value::Local(_) => false,
            Value::Known(other) => {
                classes[id.number() as usize] == classes[other.number() as usize]
            }
        },
    }
}

/// Whether an entry agrees with another, if that is an earlier one for the same block.
fn agrees_with(classes: &[u64], incoming: &[Incoming], earlier: usize, later: usize) -> bool
    requires later { later < length incoming.now }
    requires known { All (λ i. HasClass (length classes.now) i.value) incoming.now }
    ensures { result ≡ agree_at classes.now incoming.now earlier later }
{
    if earlier >= later {
        return true;
    }
    let here = incoming[later];
    let there = incoming[earlier];
    if there.block.number() != here.block.number() {
        return true;
    }
    is_same_value(classes, there.value, here.value)
}

/// Whether entries for one block are equal. For each block the number of its last entry is kept; what stands there before does not
/// matter.
pub(crate) fn do_entries_agree(last: &mut [usize], classes: &[u64], incoming: &[Incoming]) -> bool
    requires blocks { All (λ i. i.block < length last.old) incoming.now }
    requires known { All (λ i. HasClass (length classes.now) i.value) incoming.now }
    ensures len { length last.new ≡ length last.old }
    ensures agree { result ≡ entries_agree_by classes.now incoming.now }
{
    let mut agree = true;
    'entries: for number in 0..incoming.len() {
        let block = incoming[number].block.number() as usize;
        agree &= agrees_with(classes, incoming, last[block], number);
        last[block] = number;
    }
    agree
}
