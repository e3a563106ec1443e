//! How often numbers stand in lists.
ghost use Rattle.std.specs.Prelude.{◌≡◌, ◌<◌, ◌==◌, ◌&&◌, ℕ, All, length, slice_index_or};
ghost use Rattle.std.specs.List.{list_all};
ghost use Rattle.instruction_verify.specs.Uses.Edges.{count_in, same_numbers};

/// Counts how often each number stands in a list, where nothing is counted yet.
fn count(counts: &mut [usize], numbers: &[u32])
    requires known { All (λ x. x < length counts.old) numbers.now }
    requires zero { (n : ℕ) → slice_index_or counts.old n 0 ≡ 0 }
    ensures len { length counts.new ≡ length counts.old }
    ensures counted { (n : ℕ) → slice_index_or counts.new n 0 ≡ count_in numbers.now n }
{
    'numbers: for number in numbers {
        counts[*number as usize] += 1;
    }
}

/// Takes back what was counted of a list.
fn uncount(counts: &mut [usize], numbers: &[u32])
    requires known { All (λ x. x < length counts.old) numbers.now }
    requires counted { (n : ℕ) → slice_index_or counts.old n 0 ≡ count_in numbers.now n }
    ensures len { length counts.new ≡ length counts.old }
    ensures zero { (n : ℕ) → slice_index_or counts.new n 0 ≡ 0 }
{
    'numbers: for number in numbers {
        counts[*number as usize] -= 1;
    }
}

/// Whether each of these numbers was counted as often here as there.
fn agree(here: &[usize], there: &[usize], numbers: &[u32]) -> bool
    requires here { All (λ x. x < length here.now) numbers.now }
    requires there { All (λ x. x < length there.now) numbers.now }
    ensures { result ≡ list_all (λ x. slice_index_or here.now x 0 == slice_index_or there.now x 0) numbers.now }
{
    'numbers: for number in numbers {
        let place = *number as usize;
        if here[place] != there[place] {
            return false;
        }
    }
    true
}

/// Whether the numbers of one list are those of the other, each as often. The counts are scratch: nothing is counted before and after.
pub(crate) fn are_same_numbers(
    here: &mut [usize],
    there: &mut [usize],
    left: &[u32],
    right: &[u32],
) -> bool
    requires left { All (λ x. x < length here.old) left.now }
    requires right { All (λ x. x < length here.old) right.now }
    requires len { length there.old ≡ length here.old }
    requires here { (n : ℕ) → slice_index_or here.old n 0 ≡ 0 }
    requires there { (n : ℕ) → slice_index_or there.old n 0 ≡ 0 }
    ensures same { result ≡ same_numbers left.now right.now }
    ensures here_len { length here.new ≡ length here.old }
    ensures there_len { length there.new ≡ length there.old }
    ensures here { (n : ℕ) → slice_index_or here.new n 0 ≡ 0 }
    ensures there { (n : ℕ) → slice_index_or there.new n 0 ≡ 0 }
{
    count(here, left);
    count(there, right);
    let lefts = agree(here, there, left);
    let rights = agree(here, there, right);
    uncount(here, left);
    uncount(there, right);
    lefts & rights
}
