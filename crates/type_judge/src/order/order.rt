//! Puts numbers into an order in which each stands behind those that it mentions.
ghost use Rattle.std.specs.Prelude.{◌<◌, ◌^◌, length, All, IfOk, OnOk, MatchBool};
ghost use Rattle.type_judge.specs.Order.Order.{IsSettling, Keeps, KeepsAll, IsOrder, AreSettled, HasUnsettled, AreWithin, mention_lists};

use crate::order::likely::likely_order;
use std::alloc::{AllocError, Global};

/// Which numbers stand in the order so far, and the order.
#[derive(Drop)]
pub(crate) struct Settling {
    settled: Vec<bool>,
    order: Vec<u32>,
}

/// Whether all of these are settled.
fn are_settled(settled: &[bool], mentions: &[u32]) -> bool
    requires { All (λ number. number < length settled.now) mentions.now }
    ensures { MatchBool result (AreSettled settled.now mentions.now) (HasUnsettled settled.now mentions.now) }
{
    for number in mentions {
        if !settled[*number as usize] {
            return false;
        }
    }
    true
}

/// Settles the number, if it is not settled yet and all that it mentions are.
fn settle(settling: &mut Settling, mentions: &[Vec<u32>], number: usize) -> Result<(), AllocError>
    requires number { number < length mentions.now }
    requires small { length mentions.now < 2 ^ 32 }
    requires within { AreWithin mentions.now }
    requires settling { IsSettling (mention_lists mentions.now) settling.old.settled.items settling.old.order.items }
    ensures settling { OnOk result (IsSettling (mention_lists mentions.now) settling.new.settled.items settling.new.order.items) }
    ensures kept { OnOk result (Keeps (mention_lists mentions.now) number settling.old.order.items settling.new.order.items) }
{
    if settling.settled[number] {
        return Ok(());
    }
    if !are_settled(&settling.settled, &mentions[number]) {
        return Ok(());
    }
    settling.order.push(number as u32)?;
    settling.settled[number] = true;
    Ok(())
}

/// Settles those of these candidates, in turn, that can be.
fn settle_some(
    settling: &mut Settling,
    mentions: &[Vec<u32>],
    candidates: &[u32],
) -> Result<(), AllocError>
    requires small { length mentions.now < 2 ^ 32 }
    requires within { AreWithin mentions.now }
    requires settling { IsSettling (mention_lists mentions.now) settling.old.settled.items settling.old.order.items }
    ensures { OnOk result (IsSettling (mention_lists mentions.now) settling.new.settled.items settling.new.order.items) }
{
    'candidates: for candidate in candidates {
        if (*candidate as usize) < mentions.len() {
            settle(settling, mentions, *candidate as usize)?;
        }
    }
    Ok(())
}

/// Settles those of all numbers, in turn, that can be.
fn settle_each(settling: &mut Settling, mentions: &[Vec<u32>]) -> Result<(), AllocError>
    requires small { length mentions.now < 2 ^ 32 }
    requires within { AreWithin mentions.now }
    requires settling { IsSettling (mention_lists mentions.now) settling.old.settled.items settling.old.order.items }
    ensures settling { OnOk result (IsSettling (mention_lists mentions.now) settling.new.settled.items settling.new.order.items) }
    ensures kept { OnOk result (KeepsAll (mention_lists mentions.now) (length mentions.now) settling.old.order.items settling.new.order.items) }
{
    'numbers: for number in 0..mentions.len() {
        settle(settling, mentions, number)?;
    }
    Ok(())
}

/// Nothing is settled.
fn unsettled(alloc: Global, mentions: &[Vec<u32>]) -> Result<Settling, AllocError>
    ensures { IfOk result (λ settling. IsSettling (mention_lists mentions.now) settling.settled.items settling.order.items) }
{
    Ok(Settling {
        settled: vec![in alloc; false; mentions.len()]?,
        order: Vec::new(alloc),
    })
}

/// The numbers, each behind those that it mentions, without those for which there is no such order. First come those of
/// a likely order, in one go; where it was a good one, the go over all numbers behind it settles nothing.
pub(crate) fn order_of(alloc: Global, mentions: &[Vec<u32>]) -> Result<Vec<u32>, AllocError>
    requires small { length mentions.now < 2 ^ 32 }
    requires within { AreWithin mentions.now }
    ensures { IfOk result (λ order. IsOrder (mention_lists mentions.now) order.items) }
{
    let mut settling = unsettled(alloc, mentions)?;
    let likely = likely_order(alloc, mentions)?;
    settle_some(&mut settling, mentions, &likely)?;
    'goes: loop {
        let before = settling.order.len();
        settle_each(&mut settling, mentions)?;
        if settling.order.len() == before {
            break;
        }
    }
    let Settling { settled: _, order } = settling;
    Ok(order)
}
