//! Searches the numbers that a number leads to, each once, in a queue.
ghost use Rattle.std.specs.Prelude.{◌≡◌, ◌<◌, ◌+◌, ℕ, length, All, IfOk, OnOk, [], ◌∷◌};
ghost use Rattle.type_judge.specs.Order.Order.{AreWithin, mention_lists};
ghost use Rattle.type_judge.specs.Ends.Reach.{AreMarks, AreReached, HasGrown, IsSearched};

use std::alloc::{AllocError, Global};

/// The numbers that were found so far, in the order of the search, and which they are.
#[derive(Drop)]
pub(crate) struct Search {
    marks: Vec<bool>,
    queue: Vec<u32>,
}

/// Nothing was found.
fn unmarked(alloc: Global, count: usize) -> Result<Search, AllocError>
    ensures count { IfOk result (λ search. length search.marks.items ≡ count) }
    ensures marks { IfOk result (λ search. AreMarks search.marks.items search.queue.items) }
    ensures queue { IfOk result (λ search. search.queue.items ≡ []) }
{
    Ok(Search {
        marks: vec![in alloc; false; count]?,
        queue: Vec::new(alloc),
    })
}

/// Puts the number into the queue, unless it is there.
fn mark(search: &mut Search, number: u32) -> Result<(), AllocError>
    requires within { number < length search.old.marks.items }
    requires marks { AreMarks search.old.marks.items search.old.queue.items }
    ensures count { OnOk result (length search.new.marks.items ≡ length search.old.marks.items) }
    ensures marks { OnOk result (AreMarks search.new.marks.items search.new.queue.items) }
    ensures grown { OnOk result (HasGrown (number ∷ []) search.old.queue.items search.new.queue.items) }
{
    if search.marks[number as usize] {
        return Ok(());
    }
    search.queue.push(number)?;
    search.marks[number as usize] = true;
    Ok(())
}

/// Puts those of these numbers into the queue that are not there.
fn visit(search: &mut Search, numbers: &[u32]) -> Result<(), AllocError>
    requires within { All (λ number. number < length search.old.marks.items) numbers.now }
    requires marks { AreMarks search.old.marks.items search.old.queue.items }
    ensures count { OnOk result (length search.new.marks.items ≡ length search.old.marks.items) }
    ensures marks { OnOk result (AreMarks search.new.marks.items search.new.queue.items) }
    ensures grown { OnOk result (HasGrown numbers.now search.old.queue.items search.new.queue.items) }
{
    'numbers: for number in numbers {
        mark(search, *number)?;
    }
    Ok(())
}

/// Visits what the number at that place of the queue mentions, if there is one.
fn visit_at(search: &mut Search, mentions: &[Vec<u32>], place: usize) -> Result<(), AllocError>
    requires count { length search.old.marks.items ≡ length mentions.now }
    requires marks { AreMarks search.old.marks.items search.old.queue.items }
    requires within { AreWithin mentions.now }
    ensures count { OnOk result (length search.new.marks.items ≡ length mentions.now) }
    ensures marks { OnOk result (AreMarks search.new.marks.items search.new.queue.items) }
    ensures searched { (start : ℕ) → IsSearched (mention_lists mentions.now) start place search.old.queue.items → OnOk result (IsSearched (mention_lists mentions.now) start (place + 1) search.new.queue.items) }
{
    if place >= search.queue.len() {
        return Ok(());
    }
    let number = search.queue[place];
    visit(search, &mentions[number as usize])
}

/// Marks the numbers that this one leads to, through what each mentions.
pub(crate) fn search_from(
    alloc: Global,
    mentions: &[Vec<u32>],
    start: u32,
) -> Result<Vec<bool>, AllocError>
    requires start { start < length mentions.now }
    requires within { AreWithin mentions.now }
    ensures count { IfOk result (λ marks. length marks.items ≡ length mentions.now) }
    ensures reached { IfOk result (λ marks. AreReached (mention_lists mentions.now) start marks.items) }
{
    let mut search = unmarked(alloc, mentions.len())?;
    visit(&mut search, &mentions[start as usize])?;
    'places: for next in 0..mentions.len() {
        visit_at(&mut search, mentions, next)?;
    }
    let Search { marks, queue: _ } = search;
    Ok(marks)
}
