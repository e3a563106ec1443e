//! How far the terms of an address come together (LangRef, "getelementptr Instruction").
ghost use Rattle.std.specs.Prelude.{◌≡◌, ℕ, ◌+◌, ◌*◌, ◌^◌, ◌≤◌, All, IfSome, if◌then◌else◌};
ghost use Rattle.type_table.specs.declared.measure.TheConstants.{SIZE_LIMIT};
ghost use Rattle.run_rules.specs.Displace as rules;
ghost use Rattle.run_rules.specs.Frame.{read};
ghost use Rattle.run_actions.specs.Stack.UnderWay.{newest};
ghost use Rattle.run_actions.specs.Accesses.Near.{IsNear};
ghost use Rattle.run_decode.specs.Flat.Flat.{AreSummed, IsTermIn, leaf_of, terms_of};
ghost use Rattle.run_decode.specs.Flat.Spans.{spanned};
ghost use Rattle.run_acts.specs.Classes.May.{IsIndexed};

use crate::classes::operand::origin;
use run_actions::accesses::{reach, sum};
use run_actions::stack::Stack;
use run_decode::flat::{Pools, Span, Term};

/// The distance with one term more, unless that is in it already. None where an index is poison.
#[inline]
fn with_term(stack: &Stack, pools: &Pools, term: &Term, before: Option<i128>) -> Option<i128>
    requires leaf { IsTermIn pools.now term.now }
    requires index { IsIndexed stack.now pools.now term.now }
    requires size { term.now.size ≤ SIZE_LIMIT }
    requires near { IfSome before (IsNear (2 ^ 125)) }
    ensures value { result ≡ (if term.now.gathered then before else rules.sum_of before (rules.reach (read (newest stack.now.frames) (leaf_of pools.now term.now.index)) term.now.width term.now.size)) }
    ensures near { (most : ℕ) → IfSome before (IsNear most) → IfSome result (IsNear (most + 2 ^ 103)) }
{
    if term.gathered {
        return before;
    }
    let index = stack.read(&origin(pools, term.index));
    sum(before, reach(index, term.width, term.size))
}

/// How far the terms reach from the newest frame, in bytes; None where an index is poison. Those that are known are in the sum
/// already.
pub(crate) fn reach_of_terms(stack: &Stack, pools: &Pools, terms: Span, sum: u32) -> Option<i128>
    requires summed { AreSummed pools.now terms sum }
    requires indexed { All (IsIndexed stack.now pools.now) (spanned pools.now.terms terms) }
    ensures { result ≡ rules.reach_of (read (newest stack.now.frames)) (terms_of pools.now terms) }
{
    let mut all = Some(*pools.sums.at(sum));
    let listed = pools.terms.in_span(terms);
    'terms: for term in listed {
        all = with_term(stack, pools, term, all);
    }
    all
}
