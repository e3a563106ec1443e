//! Judges the items of a text, and then builds their module.
ghost use Rattle.std.specs.Prelude.{◌≡◌, ◌≤◌, true, List, ℕ, IfOk};
ghost use Rattle.ir_syntax.specs.Answers.{HasItems};
ghost use Rattle.ir_syntax.specs.Counts.{counted, most_counted};
ghost use Rattle.ir_syntax.specs.Forms.{AreItemsFormed};
ghost use Rattle.ir_syntax.specs.View.{items_view};
ghost use Rattle.module_arena.specs.Names.{are_bytes};
ghost use Rattle.module_arena.specs.View.{module_of};
ghost use Rattle.module_arena.specs.WellFormed.{IsWellFormed};
ghost use Rattle.name_rules.specs.Breaks.{first_break};
ghost use Rattle.name_rules.specs.Demand.{Tells};
ghost use Rattle.name_rules.specs.Reads.{Resolves};
ghost use Rattle.item_build.specs.Buildable.Narrow.{AreItemsNarrow};

use crate::building::build;
use ir_syntax::Items;
use module_arena::Arena;
use name_judge::judge;
use name_rules::ResolveFault;
use std::alloc::Global;

/// The module of the items, with names and numbers joined. They are refused exactly where something breaks a rule, and the
/// first break is told: too many of a kind, which has no place; else the first demand, in the order of the tokens, that
/// fails, at its place. `Memory` where memory ran out.
pub fn resolve(alloc: Global, items: &Items) -> Result<Arena, ResolveFault>
    requires few { counted (items_view items.now) ≤ most_counted }
    requires formed { AreItemsFormed (items_view items.now) }
    requires narrow { AreItemsNarrow (items_view items.now) }
    // What is resolved is the module of the items, of which nothing is asked in vain.
    ensures joined { IfOk result (λ arena. Resolves (items_view items.now) (module_of arena)) }
    // What is told is the first break, and it is told wherever there is one, but for want of memory.
    ensures told { Tells (first_break (items_view items.now)) result }
    // Where they are the items of a text, which is bytes, the module is well formed.
    ensures well_formed { (text : List ℕ) → are_bytes text ≡ true → HasItems text (items_view items.now)
        → IfOk result (λ arena. IsWellFormed (module_of arena)) }
{
    judge(alloc, items)?;
    Ok(build(alloc, items)?)
}
