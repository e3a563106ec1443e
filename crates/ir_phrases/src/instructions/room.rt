//! Gives back room that lists do not need.
ghost use Rattle.std.specs.Prelude.{◌≡◌};

/// Whether so little room is spare that to give it back takes longer than it is worth: one place, or a quarter of all.
fn is_close(length: usize, room: usize) -> bool {
    let spare = room.saturating_sub(length);
    spare <= 1 || spare <= room / 4
}

/// The list, in little more memory than it needs: at most one place or a quarter of all is spare.
#[inline(always)]
pub(crate) fn fitted<T: Drop>(list: Vec<T>) -> Vec<T>
    ensures { result.items ≡ list.items }
{
    if is_close(list.len(), list.capacity()) {
        return list;
    }
    let mut list = list;
    list.shrink_to_fit();
    list
}
