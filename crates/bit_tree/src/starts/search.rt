//! Rows whose ids ascend, searched for those of one id.
ghost use Rattle.std.specs.Prelude.{◌≡◌, ◌<◌, ◌≤◌, length, map, nat_lt, nat_le, slice_get};
ghost use Rattle.std.specs.List.{slice_range};
ghost use Rattle.std.specs.List.Sorted.{IsPartitionPoint};
ghost use Rattle.bit_tree.specs.Starts.Rows.{row_id, starts_in, IsAscending};

use crate::starts::row::GivenDefinition;

/// How many rows in front are of smaller ids.
fn count_below(rows: &[GivenDefinition], id: u64) -> usize
    requires { IsAscending rows.now }
    ensures bound { result ≤ length rows.now }
    ensures point { IsPartitionPoint (λ row. row_id row < id) (λ row. id ≤ row_id row) rows.now result }
{
    rows.partition_point(
        |row: &GivenDefinition| -> bool
            ensures { result ≡ nat_lt (row_id row.now) id }
        { row.id() < id },
    )
}

/// How many rows in front are of smaller ids or of this one.
pub fn count_through(rows: &[GivenDefinition], id: u64) -> usize
    requires { IsAscending rows.now }
    ensures bound { result ≤ length rows.now }
    ensures point { IsPartitionPoint (λ row. row_id row ≤ id) (λ row. id < row_id row) rows.now result }
{
    rows.partition_point(
        |row: &GivenDefinition| -> bool
            ensures { result ≡ nat_le (row_id row.now) id }
        { row.id() <= id },
    )
}

/// From where to where the rows of an id stand.
fn span(rows: &[GivenDefinition], id: u64) -> (usize, usize)
    requires { IsAscending rows.now }
    ensures order { result.0 ≤ result.1 }
    ensures bound { result.1 ≤ length rows.now }
    ensures starts { map (λ row. row.start) (slice_range rows.now result.0 result.1) ≡ starts_in rows.now id }
{
    (count_below(rows, id), count_through(rows, id))
}

/// The rows of an id.
pub fn rows_of(rows: &[GivenDefinition], id: u64) -> &[GivenDefinition]
    requires { IsAscending rows.now }
    ensures starts { map (λ row. row.start) result.now ≡ starts_in rows.now id }
    ensures bound { length result.now ≤ length rows.now }
{
    let (from, to) = span(rows, id);
    &rows[from..to]
}

/// Where the definition of the row with this index starts.
pub fn start_at(rows: &[GivenDefinition], index: usize) -> Option<u32>
    ensures { result ≡ slice_get (map (λ row. row.start) rows.now) index }
{
    match rows.get(index) {
        Some(row) => Some(row.start),
        None => None,
    }
}
