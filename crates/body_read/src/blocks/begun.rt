//! A body in the making.
ghost use Rattle.std.specs.Prelude.{◌≡◌, ◌<◌, ◌^◌, None, OnOk};
ghost use Rattle.record_table.specs.Bodies as bodies;
ghost use Rattle.body_read.specs.Blocks.Begun.{Adds, AddsLine, AddsResult, Begins, Ends, Pushes, StartsEmpty, due_view};

use crate::names::BodyNames;
use ir_base::ItemList;
use module_arena::{Block, Body, Ending, Inst, LocalName};
use record_read::one_more;
use std::alloc::{AllocError, Global};
use std::mem;

/// What may stand next in a body.
#[derive(Clone, Copy)]
pub enum BodyDue {
    /// What the parameters are called, which stands first.
    Parameters,
    /// The first block.
    FirstBlock,
    /// A line of the block that has not ended.
    Line,
    /// Another block, or the end of the body.
    NextBlock,
}

impl BodyDue {
    /// Whether the parameters may stand next.
    pub fn is_parameters(self) -> bool
        ensures { result ≡ bodies.is_parameters (due_view self) }
    {
        match self {
            BodyDue::Parameters => true,
            BodyDue::FirstBlock | BodyDue::Line | BodyDue::NextBlock => false,
        }
    }

    /// Whether a block may begin next.
    pub fn is_block(self) -> bool
        ensures { result ≡ bodies.is_block (due_view self) }
    {
        match self {
            BodyDue::FirstBlock | BodyDue::NextBlock => true,
            BodyDue::Parameters | BodyDue::Line => false,
        }
    }

    /// Whether a line may stand next.
    pub fn is_line(self) -> bool
        ensures { result ≡ bodies.is_line (due_view self) }
    {
        match self {
            BodyDue::Line => true,
            BodyDue::Parameters | BodyDue::FirstBlock | BodyDue::NextBlock => false,
        }
    }
}

/// What was read of a body so far.
#[derive(Drop)]
pub struct Begun {
    pub due: BodyDue,
    /// The id of the next parameter or result.
    pub next: u32,
    pub names: BodyNames,
    /// The name of the block that has not ended, and its instructions.
    pub name: LocalName,
    pub instructions: Vec<Inst>,
    pub blocks: Vec<Block>,
    pub results: Vec<LocalName>,
}

impl Begun {
    /// Nothing was read yet.
    pub fn new(alloc: Global) -> Begun
        ensures { StartsEmpty result }
    {
        Begun {
            due: BodyDue::Parameters,
            next: 0,
            names: BodyNames::new(alloc),
            name: LocalName::Numbered(0),
            instructions: Vec::new(alloc),
            blocks: Vec::new(alloc),
            results: Vec::new(alloc),
        }
    }

    /// A block of that name begins.
    pub fn begin(&mut self, alloc: Global, name: LocalName)
        ensures { Begins self.old name self.new }
    {
        self.name = name;
        self.instructions = Vec::new(alloc);
        self.due = BodyDue::Line;
    }

    /// One more instruction of the block that has not ended.
    pub fn push(&mut self, instruction: Inst) -> Result<(), AllocError>
        ensures { OnOk result (Pushes self.old instruction self.new) }
    {
        self.instructions.push(instruction)?;
        Ok(())
    }

    /// One more result.
    pub fn add_result(&mut self, name: LocalName) -> Result<(), AllocError>
        ensures { OnOk result (AddsResult self.old name self.new) }
    {
        self.next = one_more(self.next)?;
        self.results.push(name)?;
        Ok(())
    }

    /// One more instruction of the block that has not ended, and what its result is called.
    fn add_known(&mut self, instruction: Inst, name: Option<LocalName>) -> Result<(), AllocError>
        ensures { OnOk result (Adds self.old instruction name self.new) }
    {
        self.push(instruction)?;
        match name {
            Some(name) => self.add_result(name),
            None => Ok(()),
        }
    }

    /// One more instruction of the block that has not ended, where there is one, and what its result is called.
    pub fn add(
        &mut self,
        instruction: Option<Inst>,
        name: Option<LocalName>,
    ) -> Result<(), AllocError>
        ensures line { AddsLine self.old instruction name result self.new }
        ensures nothing { instruction ≡ None → OnOk result (self.new ≡ self.old) }
    {
        match instruction {
            Some(instruction) => self.add_known(instruction, name),
            None => Ok(()),
        }
    }

    /// The block that has not ended ends so.
    pub fn end(&mut self, alloc: Global, end: Ending) -> Result<(), AllocError>
        ensures { OnOk result (Ends self.old end self.new) }
    {
        let name = mem::replace(&mut self.name, LocalName::Numbered(0));
        let instructions = mem::replace(&mut self.instructions, Vec::new(alloc));
        self.blocks.push(Block {
            name,
            instructions: ItemList::from_vec(instructions),
            end,
        })?;
        self.due = BodyDue::NextBlock;
        Ok(())
    }

    /// The whole body.
    pub fn finish(self) -> Body
        ensures blocks { result.blocks ≡ self.blocks.items }
        ensures results { result.results ≡ self.results.items }
        ensures few { self.next < 2 ^ 32 }
    {
        let Begun {
            blocks,
            results,
            ..
        } = self;
        Body {
            blocks: ItemList::from_vec(blocks),
            results: ItemList::from_vec(results),
        }
    }
}
