//! The phis of a block, all together.
ghost use Rattle.std.specs.Prelude.{◌≡◌, ◌-◌, ◌≤◌, All, drop, length, map, take};
ghost use Rattle.run_actions.specs.Stack.Origins.{had, IsMoveIn, moved, origin_of, spread};

use crate::stack::origin::Move;
use crate::stack::pool::read_at;
use ir_eval::Scalar;

// What each phi is to get, in the front of the scratch.
fn gather(leaves: &[Scalar], first: usize, scratch: &mut [Scalar], moves: &[Move])
    requires there { first ≤ length leaves.now }
    requires within { All (IsMoveIn (length leaves.now - first)) moves.now }
    requires room { length moves.now ≤ length scratch.old }
    ensures gathered { take (length moves.now) scratch.new ≡ map (λ m. had (drop first leaves.now) (origin_of m.from)) moves.now }
    ensures long { length scratch.new ≡ length scratch.old }
{
    'gathering: for place in 0..moves.len() {
        scratch[place] = read_at(leaves, first, &moves[place].from);
    }
}

// Each phi gets the leaf at its place in the scratch.
fn spread(leaves: &mut [Scalar], first: usize, scratch: &[Scalar], moves: &[Move])
    requires there { first ≤ length leaves.old }
    requires within { All (IsMoveIn (length leaves.old - first)) moves.now }
    requires room { length moves.now ≤ length scratch.now }
    ensures { leaves.new ≡ spread first moves.now scratch.now leaves.old }
{
    'spreading: for place in 0..moves.len() {
        leaves[first + moves[place].to as usize] = scratch[place];
    }
}

/// Each phi of the frame whose leaves begin at `first` gets what it was to get before any of them did, by way of the scratch.
#[tactic(auto, using(crate::proofs::OnStack::Assigned::spread_gathered))]
#[inline(never)]
fn assign_together(leaves: &mut [Scalar], first: usize, scratch: &mut [Scalar], moves: &[Move])
    requires there { first ≤ length leaves.old }
    requires within { All (IsMoveIn (length leaves.old - first)) moves.now }
    requires room { length moves.now ≤ length scratch.old }
    ensures assigned { leaves.new ≡ moved first (drop first leaves.old) moves.now leaves.old }
    ensures long { length scratch.new ≡ length scratch.old }
{
    gather(leaves, first, scratch, moves);
    spread(leaves, first, scratch, moves);
}

/// Each phi of the frame whose leaves begin at `first` gets what it was to get before any of them did. One alone needs no scratch.
#[inline(always)]
pub fn assign(leaves: &mut [Scalar], first: usize, scratch: &mut [Scalar], moves: &[Move])
    requires there { first ≤ length leaves.old }
    requires within { All (IsMoveIn (length leaves.old - first)) moves.now }
    requires room { length moves.now ≤ length scratch.old }
    ensures assigned { leaves.new ≡ moved first (drop first leaves.old) moves.now leaves.old }
    ensures long { length scratch.new ≡ length scratch.old }
{
    if let [only] = moves {
        let leaf = read_at(leaves, first, &only.from);
        leaves[first + only.to as usize] = leaf;
    } else {
        assign_together(leaves, first, scratch, moves);
    }
}
