//! The frames of the functions that are under way.
ghost use Rattle.std.specs.Prelude.{◌≡◌, ◌==◌, ◌+◌, ◌^◌, ◌<◌, ◌≤◌, ◌++◌, ◌∷◌, [], All, IfOk, OnErr, OnOk, if◌then◌else◌, length, map, max, nat_le};
ghost use Rattle.run_rules.specs.Calls.{begun};
ghost use Rattle.run_rules.specs.Frame.{followed, moved_on, read, read_all, with_value};
ghost use Rattle.run_rules.specs.State.{weight, weight_limit, weights};
ghost use Rattle.run_actions.specs.Stack.Origins.{edge_of, IsIn, IsMoveIn, origin_of};
ghost use Rattle.run_actions.specs.Stack.UnderWay.{changed, first_alloca, Fits, IsRunning, newest, older, with_alloca, without_alloca};

use crate::stack::mark::{BOTTOM, Mark, stand};
use crate::stack::origin::{Move, Origin};
use crate::stack::phis::assign;
use crate::stack::pool::{fill, make_room, read_at, read_into, write_at};
use ir_eval::{Pointer, Scalar};
use run_rules::WEIGHT_LIMIT;
use std::alloc::{AllocError, Global};
use std::marker::Model;

/// The frames of the functions under way. A clause sees them the newest first, and how many leaves an edge may set at once.
///
/// The leaves of all frames lie in one pool, the oldest frame's first, and so do their allocas. Below the oldest frame's mark
/// stands one that is no frame's, so the newest mark is always at hand.
#[derive(Drop)]
pub struct Stack {
    leaves: Vec<Scalar>,
    allocas: Vec<Pointer>,
    top: Mark,
    below: Vec<Mark>,
    scratch: Vec<Scalar>,
}

impl Model for Stack {
    ghost use Rattle.std.specs.Prelude.{length};
    ghost use Rattle.run_actions.specs.Stack.UnderWay.{UnderWay};

    ghost Value = { UnderWay };

    ghost use Rattle.run_actions.specs.Stack.Pool.{IsPool, seen};

    ghost view = { λ s. seen s.leaves.items s.allocas.items s.top s.below.items (length s.scratch.items) };

    ghost invariant = { λ s. IsPool (length s.leaves.items) (length s.allocas.items) s.top s.below.items };
}

impl Stack {
    /// No function is under way.
    pub fn new(alloc: Global) -> Stack
        ensures { result ≡ record { frames = []; widest = 0 } }
    {
        Stack {
            leaves: Vec::new(alloc),
            allocas: Vec::new(alloc),
            top: BOTTOM,
            below: Vec::new(alloc),
            scratch: Vec::new(alloc),
        }
    }

    /// Whether no function is under way.
    #[inline]
    pub fn is_empty(&self) -> bool
        ensures { result ≡ (length self.now.frames == 0) }
    {
        self.below.is_empty()
    }

    /// The number of the newest frame's function.
    #[inline]
    pub fn function(&self) -> u32
        requires { IsRunning self.now.frames }
        ensures { result ≡ (newest self.now.frames).function }
    {
        let top = &self.top;
        top.function
    }

    /// The block at which the newest frame stands.
    #[inline]
    pub fn block(&self) -> u32
        requires { IsRunning self.now.frames }
        ensures { result ≡ (newest self.now.frames).block }
    {
        let top = &self.top;
        top.block
    }

    /// The place in its block of the newest frame's next instruction, counted from 0.
    #[inline]
    pub fn position(&self) -> u32
        requires { IsRunning self.now.frames }
        ensures { result ≡ (newest self.now.frames).position }
    {
        let top = &self.top;
        top.position
    }

    /// What all frames weigh: each the number of its leaves, and one more.
    #[inline]
    pub fn weight(&self) -> u64
        ensures value { result ≡ weights self.now.frames }
        ensures few { result ≤ weight_limit }
    {
        (self.below.len() + self.leaves.len()) as u64
    }

    /// What the leaf is, in the newest frame. One that is known is so in any, and where no function is under way.
    #[inline]
    pub fn read(&self, origin: &Origin) -> Scalar
        requires { IsIn (length (newest self.now.frames).leaves) origin.now }
        ensures { result ≡ read (newest self.now.frames) (origin_of origin.now) }
    {
        read_at(&self.leaves, self.top.first, origin)
    }

    /// Puts what the leaves are, in the newest frame, behind those that are there. Refused memory changes nothing.
    #[inline(always)]
    pub fn read_all(&self, origins: &[Origin], into: &mut Vec<Scalar>) -> Result<(), AllocError>
        requires { All (IsIn (length (newest self.now.frames).leaves)) origins.now }
        ensures ok { OnOk result (into.new.items ≡ into.old.items ++ read_all (newest self.now.frames) (map origin_of origins.now)) }
        ensures err { OnErr result (into.new.items ≡ into.old.items) }
    {
        read_into(&self.leaves, self.top.first, origins, into)
    }

    /// Sets a leaf of the newest frame, which stays where it is.
    #[inline]
    pub fn set(&mut self, to: u32, leaf: Scalar)
        requires { to < length (newest self.old.frames).leaves }
        ensures { self.new ≡ changed (λ f. with_value f to (leaf ∷ [])) self.old }
    {
        self.leaves[self.top.first + to as usize] = leaf;
    }

    /// Sets the leaves of a value, one after another, in the newest frame. A value with no leaf sets none.
    pub fn set_all(&mut self, to: u32, value: &[Scalar])
        requires { Fits (length (newest self.old.frames).leaves) to value.now }
        ensures { self.new ≡ changed (λ f. with_value f to value.now) self.old }
    {
        if value.is_empty() {
            return;
        }
        let at = self.top.first + to as usize;
        write_at(&mut self.leaves, at, value);
    }

    /// In the newest frame the next instruction is due.
    #[inline]
    pub fn move_on(&mut self)
        requires running { IsRunning self.old.frames }
        requires room { (newest self.old.frames).position + 1 < 2 ^ 32 }
        ensures { self.new ≡ changed moved_on self.old }
    {
        let top = &mut self.top;
        top.position += 1;
    }

    /// The newest frame goes along an edge: to that place, where each phi gets what it was to get before any of them did.
    #[inline]
    pub fn follow(&mut self, block: u32, position: u32, moves: &[Move])
        requires running { IsRunning self.old.frames }
        requires within { All (IsMoveIn (length (newest self.old.frames).leaves)) moves.now }
        requires room { length moves.now ≤ self.old.widest }
        ensures { self.new ≡ changed (followed (edge_of block position moves.now)) self.old }
    {
        if moves.is_empty() {
            stand(&mut self.top, block, position);
            return;
        }
        let first = self.top.first;
        assign(&mut self.leaves, first, &mut self.scratch, moves);
        stand(&mut self.top, block, position);
    }
}

impl Stack {
    /// Whether one frame more with so many leaves may begin: all frames would not weigh too much then.
    #[inline]
    pub fn has_room(&self, leaves: u64) -> bool
        ensures { result ≡ nat_le (weights self.now.frames + (1 + leaves)) weight_limit }
    {
        leaves < WEIGHT_LIMIT - self.weight()
    }

    /// A function begins: its first leaves are the arguments and the others poison, and its result will go to that place of the
    /// frame below. From now on an edge may set `widest` leaves at once, or as many as it might before.
    ///
    /// False where all frames would weigh too much then. Where it is false, or memory is refused, nothing changes.
    pub fn enter(
        &mut self,
        function: u32,
        leaves: u64,
        arguments: &[Scalar],
        to: u32,
        widest: u32,
    ) -> Result<bool, AllocError>
        requires { length arguments.now ≤ leaves }
        ensures entered { IfOk result (λ entered. self.new ≡ (if entered then record { frames = begun function leaves arguments.now to ∷ self.old.frames; widest = max self.old.widest widest } else self.old)) }
        ensures test { IfOk result (λ entered. entered ≡ nat_le (weights self.old.frames + weight (begun function leaves arguments.now to)) weight_limit) }
        ensures err { OnErr result (self.new ≡ self.old) }
    {
        if !self.has_room(leaves) {
            return Ok(false);
        }
        let mark = Mark {
            function,
            block: 0,
            position: 0,
            to,
            first: self.leaves.len(),
            allocas: self.allocas.len(),
        };
        make_room(
            &mut self.leaves,
            &mut self.below,
            &mut self.scratch,
            leaves as usize,
            widest as usize,
        )?;
        fill(&mut self.leaves, arguments, leaves as usize);
        match self.below.push(self.top) {
            Ok(()) => self.top = mark,
            Err(_) => unreachable!(),
        }
        Ok(true)
    }

    /// The newest function is left, and its leaves and allocas are gone. The place comes back where the frame below wants its result.
    pub fn leave(&mut self) -> u32
        requires { IsRunning self.old.frames }
        ensures to { result ≡ (newest self.old.frames).to }
        ensures left { self.new ≡ record { frames = older self.old.frames; widest = self.old.widest } }
    {
        let Mark {
            to,
            first,
            allocas,
            ..
        } = self.top;
        match self.below.pop() {
            Some(caller) => self.top = caller,
            None => unreachable!(),
        }
        self.leaves.truncate(first);
        self.allocas.truncate(allocas);
        to
    }

    /// The newest frame has one alloca more. Refused memory changes nothing.
    pub fn push_alloca(&mut self, alloca: Pointer) -> Result<(), AllocError>
        requires { IsRunning self.old.frames }
        ensures ok { OnOk result (self.new ≡ changed (with_alloca alloca) self.old) }
        ensures err { OnErr result (self.new ≡ self.old) }
    {
        self.allocas.push(alloca)?;
        Ok(())
    }

    /// Takes the alloca that was made last from the newest frame, or None where it has none.
    pub fn pop_alloca(&mut self) -> Option<Pointer>
        requires { IsRunning self.old.frames }
        ensures last { result ≡ first_alloca (newest self.old.frames).allocas }
        ensures others { self.new ≡ changed without_alloca self.old }
    {
        if self.allocas.len() == self.top.allocas {
            return None;
        }
        match self.allocas.pop() {
            Some(alloca) => Some(alloca),
            None => unreachable!(),
        }
    }
}
