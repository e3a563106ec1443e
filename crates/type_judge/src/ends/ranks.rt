//! Ranks of numbers, none of which mentions one of a lower rank. A number that mentions higher ranks alone does not lead back
//! to itself, which is so told without a search.
ghost use Rattle.std.specs.Prelude.{◌≡◌, ◌<◌, ◌≤◌, true, length, slice_index_or, IfOk};
ghost use Rattle.type_judge.specs.Order.Order.{mentioned, mention_lists};
ghost use Rattle.type_judge.specs.Ends.Reach.{AreFrom, AreAbove, IsRising};

use crate::ends::walk::likely_ranks;
use std::alloc::{AllocError, Global};

/// The rank of the number, 0 where it has none.
fn rank_at(ranks: &[u32], number: usize) -> u32
    ensures { result ≡ slice_index_or ranks.now number 0 }
{
    match ranks.get(number) {
        Some(rank) => *rank,
        None => 0,
    }
}

/// Whether the number has that rank or a higher one.
fn is_from(ranks: &[u32], low: u32, number: u32) -> bool
    ensures { result ≡ true → low ≤ slice_index_or ranks.now number 0 }
{
    if rank_at(ranks, number as usize) < low {
        return false;
    }
    true
}

/// Whether the number has a higher rank.
fn is_above(ranks: &[u32], low: u32, number: u32) -> bool
    ensures { result ≡ true → low < slice_index_or ranks.now number 0 }
{
    if rank_at(ranks, number as usize) <= low {
        return false;
    }
    true
}

/// Whether each of these numbers has that rank or a higher one.
fn are_from(ranks: &[u32], low: u32, numbers: &[u32]) -> bool
    ensures { result ≡ true → AreFrom ranks.now low numbers.now }
{
    'numbers: for number in numbers {
        if !is_from(ranks, low, *number) {
            return false;
        }
    }
    true
}

/// Whether each of these numbers has a higher rank.
fn are_above(ranks: &[u32], low: u32, numbers: &[u32]) -> bool
    ensures { result ≡ true → AreAbove ranks.now low numbers.now }
{
    'numbers: for number in numbers {
        if !is_above(ranks, low, *number) {
            return false;
        }
    }
    true
}

/// Whether the number mentions none of a lower rank.
fn is_rising_at(ranks: &[u32], mentions: &[Vec<u32>], number: usize) -> bool
    requires { number < length mentions.now }
    ensures { result ≡ true → AreFrom ranks.now (slice_index_or ranks.now number 0) (mentioned (mention_lists mentions.now) number) }
{
    are_from(ranks, rank_at(ranks, number), &mentions[number])
}

/// Whether no number mentions one of a lower rank.
fn are_rising(ranks: &[u32], mentions: &[Vec<u32>]) -> bool
    ensures { result ≡ true → IsRising (mention_lists mentions.now) ranks.now }
{
    'users: for number in 0..mentions.len() {
        if !is_rising_at(ranks, mentions, number) {
            return false;
        }
    }
    true
}

/// Ranks of the numbers, none of which mentions one of a lower rank.
pub(crate) fn ranks_of(alloc: Global, mentions: &[Vec<u32>]) -> Result<Vec<u32>, AllocError>
    ensures { IfOk result (λ ranks. IsRising (mention_lists mentions.now) ranks.items) }
{
    let ranks = likely_ranks(alloc, mentions)?;
    if are_rising(&ranks, mentions) {
        return Ok(ranks);
    }
    Ok(Vec::new(alloc))
}

/// Whether the number mentions higher ranks alone.
pub(crate) fn leads_up(ranks: &[u32], mentions: &[Vec<u32>], number: u32) -> bool
    requires { number < length mentions.now }
    ensures { result ≡ true → AreAbove ranks.now (slice_index_or ranks.now number 0) (mentioned (mention_lists mentions.now) number) }
{
    are_above(
        ranks,
        rank_at(ranks, number as usize),
        &mentions[number as usize],
    )
}
