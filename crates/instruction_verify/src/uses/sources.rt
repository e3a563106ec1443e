//! The blocks that lead to each block of a function.
ghost use Rattle.std.specs.Prelude.{◌≡◌, ◌<◌, ◌^◌, [], ◌∷◌, ◌++◌, ℕ, All, IfOk, OnOk, length, map, slice_index_or};
ghost use Rattle.module_arena.specs.Mentions.{targets_of};
ghost use Rattle.instruction_verify.specs.Uses.Edges.{edges_to, source_of, sources_from};

use module_arena::{Block, BlockId, Case, Ending};
use std::alloc::{AllocError, Global};
use std::marker::Model;

/// The blocks that lead to a block, once for each edge, by their numbers.
#[derive(Drop)]
pub(crate) struct Sources {
    blocks: Vec<u32>,
}

impl Model for Sources {
    ghost use Rattle.std.specs.Prelude.{List, ℕ};

    ghost Value = { List ℕ };

    ghost view = { λ sources. sources.blocks.items };
}

impl Sources {
    /// No blocks.
    fn none(alloc: Global) -> Sources
        ensures { result ≡ [] }
    {
        Sources {
            blocks: Vec::new(alloc),
        }
    }

    /// One edge more, from that block.
    fn add(&mut self, from: u32) -> Result<(), AllocError>
        ensures { OnOk result (self.new ≡ self.old ++ from ∷ []) }
    {
        self.blocks.push(from)?;
        Ok(())
    }

    /// The blocks.
    pub(crate) fn blocks(&self) -> &[u32]
        ensures { result.now ≡ self.now }
    {
        &self.blocks
    }
}

/// Adds an edge from one block to another.
fn add_edge(sources: &mut [Sources], from: u32, to: BlockId) -> Result<(), AllocError>
    requires { to < length sources.old }
    ensures len { length sources.new ≡ length sources.old }
    ensures edges { OnOk result ((b : ℕ) → b < length sources.old → source_of sources.new b ≡ source_of sources.old b ++ edges_to from (to ∷ []) b) }
{
    sources[to.number() as usize].add(from)
}

/// Adds the edges of the cases of a `switch`.
fn add_cases(sources: &mut [Sources], from: u32, cases: &[Case]) -> Result<(), AllocError>
    requires { All (λ c. c.target < length sources.old) cases.now }
    ensures len { length sources.new ≡ length sources.old }
    ensures edges { OnOk result ((b : ℕ) → b < length sources.old → source_of sources.new b ≡ source_of sources.old b ++ edges_to from (map (λ c. c.target) cases.now) b) }
{
    'cases: for case in cases {
        add_edge(sources, from, case.target)?;
    }
    Ok(())
}

/// Adds the edges of the end of a block.
fn add_edges(sources: &mut [Sources], from: u32, ending: &Ending) -> Result<(), AllocError>
    requires { All (λ t. t < length sources.old) (targets_of ending.now) }
    ensures len { length sources.new ≡ length sources.old }
    ensures edges { OnOk result ((b : ℕ) → b < length sources.old → source_of sources.new b ≡ source_of sources.old b ++ edges_to from (targets_of ending.now) b) }
{
    match ending {
        Ending::Jump(target) => add_edge(sources, from, *target),
        Ending::Branch {
            then_to,
            else_to,
            ..
        } => {
            add_edge(sources, from, *then_to)?;
            add_edge(sources, from, *else_to)
        }
        Ending::Switch {
            otherwise,
            cases,
            ..
        } => {
            add_edge(sources, from, *otherwise)?;
            add_cases(sources, from, cases.as_slice())
        }
        Ending::ReturnVoid | Ending::Return(_) | Ending::Unreachable => Ok(()),
    }
}

/// So many lists without blocks.
fn no_sources(alloc: Global, blocks: usize) -> Result<Vec<Sources>, AllocError>
    ensures { IfOk result (λ sources. (length sources.items ≡ blocks) × ((b : ℕ) → source_of sources.items b ≡ [])) }
{
    let mut sources = Vec::with_capacity(alloc, blocks)?;
    'lists: for _number in 0..blocks {
        sources.push(Sources::none(alloc))?;
    }
    Ok(sources)
}

/// For each block, the blocks that lead to it.
pub(crate) fn sources_of(alloc: Global, blocks: &[Block]) -> Result<Vec<Sources>, AllocError>
    requires few { length blocks.now < 2 ^ 32 }
    requires known { All (λ b. All (λ t. t < length blocks.now) (targets_of b.end)) blocks.now }
    ensures { IfOk result (λ sources. (length sources.items ≡ length blocks.now) × ((b : ℕ) → b < length blocks.now → source_of sources.items b ≡ sources_from 0 blocks.now b)) }
{
    let mut sources = no_sources(alloc, blocks.len())?;
    'edges: for number in 0..blocks.len() {
        add_edges(&mut sources, number as u32, &blocks[number].end)?;
    }
    Ok(sources)
}
