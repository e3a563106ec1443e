//! The body of a function.
ghost use Rattle.std.specs.Prelude.{◌≡◌, ◌+◌, ◌^◌, ◌<◌, All, false, map};
ghost use Rattle.run_rules.specs.NeverStuck.{is_stuck};
ghost use Rattle.run_decode.specs.Flat.Flat.{IsWithin, action_of};
ghost use Rattle.run_decode.specs.Flat.Spans.{IsSpanIn, spanned};
ghost use Rattle.run_decode.specs.Body.Bodies.{AreNarrow, look_of};

use crate::body::widest::widest_way;
use crate::flat::{Action, Pool, Pools, Span};
use module_arena::Checked;
use std::marker::Model;

/// The body of a function as actions: those of each block in order, its end behind them. A clause sees the actions of each block, the
/// pools into which they point, and the lists of the module.
#[derive(Drop)]
pub struct ActionBody<'m> {
    program: &'m Checked,
    pools: Pools,
    actions: Pool<Action>,
    rows: Pool<Span>,
    widest: u32,
}

impl<'m> Model for ActionBody<'m> {
    ghost use Rattle.std.specs.Prelude.{map};
    ghost use Rattle.run_decode.specs.Flat.Spans.{spanned};
    ghost use Rattle.run_decode.specs.Body.Bodies.{Decoded, IsDecoded};

    ghost Value = { Decoded };

    ghost view = { λ b. record { lists = b.program.now; pools = b.pools; rows = map (spanned b.actions) b.rows; widest = b.widest } };

    ghost invariant = { λ b. IsDecoded b.pools b.actions b.rows b.widest };
}

impl<'m> ActionBody<'m> {
    /// The body of a function of a module: its actions, where those of each block stand, in the order of the blocks, and the pools into
    /// which the actions point.
    pub fn new(
        program: &'m Checked,
        pools: Pools,
        actions: Pool<Action>,
        rows: Pool<Span>,
    ) -> ActionBody<'m>
        requires rows { All (IsSpanIn actions) rows }
        requires within { All (IsWithin pools) actions }
        ensures lists { result.lists ≡ program.now }
        ensures pools { result.pools ≡ pools }
        ensures rows { result.rows ≡ map (spanned actions) rows }
        ensures narrow { AreNarrow result.pools result.widest }
    {
        let widest = widest_way(&pools);
        ActionBody {
            program,
            pools,
            actions,
            rows,
            widest,
        }
    }

    /// The action at a place of the function where an instruction is: its block and its position there, both counted from 0.
    #[inline]
    pub fn action(&self, block: u32, position: u32) -> &Action
        requires { is_stuck (look_of self.now block position) ≡ false }
        ensures action { action_of self.now.pools self.now.lists result.now ≡ look_of self.now block position }
        ensures within { IsWithin self.now.pools result.now }
        ensures fits { position + 1 < 2 ^ 32 }
    {
        let row = *self.rows.at(block);
        self.actions.at(row.first + position)
    }

    /// The lists into which actions point.
    #[inline]
    pub fn pools(&self) -> &Pools
        ensures { result.now ≡ self.now.pools }
    {
        &self.pools
    }

    /// How many leaves an edge sets at most.
    #[inline]
    pub fn widest(&self) -> u32
        ensures widest { result ≡ self.now.widest }
        ensures narrow { AreNarrow self.now.pools result }
    {
        self.widest
    }
}
