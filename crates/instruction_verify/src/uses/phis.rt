//! Whether phis suit their places and their edges: rule 9.
ghost use Rattle.std.specs.Prelude.{◌≡◌, ◌<◌, ◌^◌, [], ℕ, All, IfOk, List, OnOk, length, map, take, slice_index_or};
ghost use Rattle.std.specs.List.{list_all};
ghost use Rattle.module_arena.specs.InstructionRules.{is_phi, is_phi_operation};
ghost use Rattle.module_arena.specs.Lists.{Lists, function_blocks, value_names};
ghost use Rattle.module_arena.specs.declared.entry.Function as the_function;
ghost use Rattle.module_arena.specs.Mentions as mentions;
ghost use Rattle.module_arena.specs.Mentions.{targets_of};
ghost use Rattle.module_arena.specs.Module as modules;
ghost use Rattle.module_arena.specs.Same.{IsApart};
ghost use Rattle.module_arena.specs.View.{constants_of};
ghost use Rattle.path_rows.specs.Graph.{Graph};
ghost use Rattle.path_rows.specs.Numbers.{names_of};
ghost use Rattle.path_rows.specs.Reflects.{Reflects};
ghost use Rattle.entry_verify.specs.Types.Judged.{Judged};
ghost use Rattle.instruction_verify.specs.Uses.Uses.{HasUses, block_named, flow_in, instruction_in};
ghost use Rattle.instruction_verify.specs.Uses.Asked.{phi_demands};
ghost use Rattle.instruction_verify.specs.Uses.Classes.{AreClasses, HasClass};
ghost use Rattle.instruction_verify.specs.Uses.Edges.{IsSourced, MayBeSourced, entries_suit_by, sources_from, suits_by};

use crate::uses::agreeing::do_entries_agree;
use crate::uses::counts::are_same_numbers;
use crate::uses::site::Site;
use crate::uses::sources::{Sources, sources_of};
use entry_verify::types::{VerifyFault, asked, judge_instruction};
use module_arena::{BlockId, Function, Incoming, Inst};
use std::alloc::{AllocError, Global};
use std::marker::Model;

/// What the phis of a function are judged by: for each block, the blocks that lead to it. It is made once a function, and has none of
/// them before the first phi.
#[derive(Drop)]
pub struct PhiJudge {
    sources: Vec<Sources>,
    // Scratch, one place a block: nothing is counted between two judgements, and what `last` has does not matter.
    entries: Vec<usize>,
    edges: Vec<usize>,
    last: Vec<usize>,
}

impl Model for PhiJudge {
    ghost use Rattle.std.specs.Prelude.{List, ℕ};
    ghost use Rattle.instruction_verify.specs.Uses.Edges.{IsScratch};

    ghost Value = { List (List ℕ) };

    ghost view = { λ judge. judge.sources.items };

    ghost invariant = { λ judge. IsScratch judge.sources.items judge.entries.items judge.edges.items judge.last.items };
}

/// Whether an instruction is a phi.
pub fn is_phi(instruction: &Inst) -> bool
    ensures { (a : Lists) (f : the_function.Function) → result ≡ is_phi_operation (instruction_in a f instruction.now).operation }
{
    match instruction {
        Inst::Phi(_, _, _) => true,
        _ => false,
    }
}

/// The blocks that the values of a phi come from.
fn blocks_of(alloc: Global, incoming: &[Incoming]) -> Result<Vec<u32>, AllocError>
    ensures { IfOk result (λ blocks. blocks.items ≡ map (λ i. i.block) incoming.now) }
{
    let mut blocks = Vec::with_capacity(alloc, incoming.len())?;
    'entries: for entry in incoming {
        blocks.push(entry.block.number())?;
    }
    Ok(blocks)
}

/// For each block of a function, the blocks that lead to it.
fn function_sources(alloc: Global, function: &Function) -> Result<Vec<Sources>, AllocError>
    requires few { length (function_blocks function.now) < 2 ^ 32 }
    requires known { All (λ b. All (λ t. t < length (function_blocks function.now)) (targets_of b.end)) (function_blocks function.now) }
    ensures { IfOk result (λ sources. IsSourced function.now sources.items) }
{
    match &function.body {
        Some(body) => sources_of(alloc, body.blocks.as_slice()),
        None => Ok(Vec::new(alloc)),
    }
}

impl PhiJudge {
    /// A judge of the phis of a function, before it has met one.
    pub fn new(alloc: Global) -> PhiJudge
        ensures { result ≡ [] }
    {
        PhiJudge {
            sources: Vec::new(alloc),
            entries: Vec::new(alloc),
            edges: Vec::new(alloc),
            last: Vec::new(alloc),
        }
    }

    /// A judge that has the blocks that lead to each block of a function.
    fn of_function(alloc: Global, function: &Function) -> Result<PhiJudge, AllocError>
        requires few { length (function_blocks function.now) < 2 ^ 32 }
        requires known { All (λ b. All (λ t. t < length (function_blocks function.now)) (targets_of b.end)) (function_blocks function.now) }
        ensures { IfOk result (λ judge. IsSourced function.now judge) }
    {
        let sources = function_sources(alloc, function)?;
        let blocks = sources.len();
        let entries = vec![in alloc; 0; blocks]?;
        let edges = vec![in alloc; 0; blocks]?;
        let last = vec![in alloc; 0; blocks]?;
        Ok(PhiJudge {
            sources,
            entries,
            edges,
            last,
        })
    }

    /// Sees to it that the judge has the blocks that lead to each block of the function.
    fn make_ready(&mut self, alloc: Global, function: &Function) -> Result<(), AllocError>
        requires judge { MayBeSourced function.now self.old }
        requires few { length (function_blocks function.now) < 2 ^ 32 }
        requires targets { All (λ b. All (λ t. t < length (function_blocks function.now)) (targets_of b.end)) (function_blocks function.now) }
        ensures judge { MayBeSourced function.now self.new }
        ensures ready { OnOk result (IsSourced function.now self.new) }
    {
        if self.sources.is_empty() {
            *self = PhiJudge::of_function(alloc, function)?;
        }
        Ok(())
    }

    /// Whether there is one entry for each edge to the block, and entries for one block are equal.
    fn entries_suit(
        &mut self,
        alloc: Global,
        classes: &[u64],
        block: BlockId,
        incoming: &[Incoming],
    ) -> Result<bool, AllocError>
        requires block { block < length self.old }
        requires sources { All (λ b. b < length self.old) (slice_index_or self.old block []) }
        requires blocks { All (λ i. i.block < length self.old) incoming.now }
        requires known { All (λ i. HasClass (length classes.now) i.value) incoming.now }
        ensures same { self.new ≡ self.old }
        ensures suits { IfOk result (λ suits. suits ≡ entries_suit_by classes.now (slice_index_or self.old block []) incoming.now) }
    {
        let blocks = blocks_of(alloc, incoming)?;
        let met = are_same_numbers(
            &mut self.entries,
            &mut self.edges,
            &blocks,
            self.sources[block.number() as usize].blocks(),
        );
        let agree = do_entries_agree(&mut self.last, classes, incoming);
        Ok(met & agree)
    }

    /// Whether an instruction suits as a phi; what is none does.
    fn phi_suits(
        &mut self,
        alloc: Global,
        classes: &[u64],
        function: &Function,
        block: BlockId,
        behind_phis: bool,
        instruction: &Inst,
    ) -> Result<bool, AllocError>
        requires judge { MayBeSourced function.now self.old }
        requires few { length (function_blocks function.now) < 2 ^ 32 }
        requires targets { All (λ b. All (λ t. t < length (function_blocks function.now)) (targets_of b.end)) (function_blocks function.now) }
        requires block { block < length (function_blocks function.now) }
        requires blocks { All (λ id. id < length (function_blocks function.now)) (mentions.blocks_of instruction.now) }
        requires known { All (HasClass (length classes.now)) (mentions.bare_values_of instruction.now) }
        ensures judge { MayBeSourced function.now self.new }
        ensures suits { IfOk result (λ suits. suits ≡ suits_by classes.now (sources_from 0 (function_blocks function.now) block) behind_phis instruction.now) }
    {
        match instruction {
            Inst::Phi(_, _, incoming) => {
                self.make_ready(alloc, function)?;
                let suits = self.entries_suit(alloc, classes, block, incoming.as_slice())?;
                Ok(behind_phis & suits)
            }
            _ => Ok(true),
        }
    }

    /// What an instruction is asked as a phi: a fault of rule 9 at it, where it is a phi and does not stand behind phis alone, or has
    /// not one entry for each edge to its block, or two entries for one block that are not equal.
    ///
    /// `classes` has a number for each constant of the arena, by its id: one for two exactly where they are the same. `behind_phis` tells
    /// whether all instructions before it in its block are phis. At the first phi the judge looks at the function, which is that of all
    /// instructions that it judges.
    pub fn judge_phi(
        &mut self,
        alloc: Global,
        classes: &[u64],
        function: &Function,
        site: Site,
        behind_phis: bool,
        instruction: &Inst,
    ) -> Result<(), VerifyFault>
        requires judge { MayBeSourced function.now self.old }
        requires few { length (function_blocks function.now) < 2 ^ 32 }
        requires targets { All (λ b. All (λ t. t < length (function_blocks function.now)) (targets_of b.end)) (function_blocks function.now) }
        requires block { site.block < length (function_blocks function.now) }
        requires known { HasUses (length (value_names function.now)) (length (function_blocks function.now)) instruction.now }
        requires classes { All (HasClass (length classes.now)) (mentions.bare_values_of instruction.now) }
        ensures judge { MayBeSourced function.now self.new }
        ensures judged { (a : Lists) (g : Graph) (block : modules.Block) → Reflects (flow_in a function.now) (names_of function.now) g → IsApart (names_of function.now)
            → AreClasses (constants_of a) classes.now → block.name ≡ block_named function.now site.block → behind_phis ≡ list_all is_phi (take site.before block.instructions)
            → Judged (phi_demands a function.now block site instruction.now) result }
    {
        let number = site.number;
        let suits = self.phi_suits(
            alloc,
            classes,
            function,
            site.block,
            behind_phis,
            instruction,
        )?;
        judge_instruction(alloc, number, &function.name, &[asked(9, suits)])
    }
}
