//! Rows merged with the fewer rows that came after them.
ghost use Rattle.std.specs.Prelude.{◌≡◌, ◌+◌, ◌-◌, ◌<◌, ◌≤◌, ◌++◌, ℕ, true, false, length, take, slice_index_or};
ghost use Rattle.bit_tree.specs.Starts.Rows.{row_id, starts_in, IsAscending};
ghost use Rattle.bit_tree.specs.declared.starts.row.GivenDefinition.{GivenDefinition as RowValue};

use crate::starts::row::GivenDefinition;

/// Whether the last of these rows is of a greater id.
fn ends_above(rows: &[GivenDefinition], id: u64) -> bool
    ensures some { result ≡ true → 0 < length rows.now }
    ensures above { result ≡ true → (row : RowValue) → id < row_id (slice_index_or rows.now (length rows.now - 1) row) }
    ensures within { result ≡ false → 0 < length rows.now → (row : RowValue) → row_id (slice_index_or rows.now (length rows.now - 1) row) ≤ id }
{
    let count = rows.len();
    if count == 0 {
        return false;
    }
    rows[count - 1].id() > id
}

/// Merges rows that came later into the first so many rows, in place and from behind, where there is room for them. Of
/// one id those that came later stand behind the others.
pub fn merge(rows: &mut [GivenDefinition], count: usize, later: &[GivenDefinition])
    requires room { count + length later.now ≡ length rows.old }
    requires rows { IsAscending (take count rows.old) }
    requires later { IsAscending later.now }
    ensures ascending { IsAscending rows.new }
    ensures long { length rows.new ≡ length rows.old }
    ensures starts { (id : ℕ) → starts_in rows.new id ≡ starts_in (take count rows.old) id ++ starts_in later.now id }
{
    let mut front = count;
    let mut back = later.len();
    while back > 0 {
        let row = later[back - 1];
        if ends_above(&rows[..front], row.id()) {
            front -= 1;
            rows[front + back] = rows[front];
        } else {
            back -= 1;
            rows[front + back] = row;
        }
    }
}
