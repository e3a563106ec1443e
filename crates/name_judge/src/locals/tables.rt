//! The tables of locals, which are made once for all functions and emptied for each.
#![tactic(auto)]

ghost use Rattle.std.specs.Prelude.{◌≡◌, [], map, OnOk};
ghost use Rattle.ir_phrases.specs.Instructions.View.{block_view};
ghost use Rattle.ir_syntax.specs.View.{parameter_view};
ghost use Rattle.name_rules.specs.Locals.{announced, locals_from};
ghost use Rattle.name_judge.specs.Locals.Names.{AreGathered, locals_of};

use crate::locals::called::CalledNames;
use crate::locals::gathered::FunctionLocals;
use ir_phrases::instructions::WrittenBlock;
use ir_syntax::WrittenParameter;
use std::alloc::{AllocError, Global};

/// What the locals of one function after the other are called. It borrows the names of the text.
#[derive(Drop)]
pub struct LocalTables<'a> {
    /// All of the function.
    pub(crate) locals: FunctionLocals<'a>,
    /// Those so far.
    pub(crate) called: CalledNames<'a>,
}

impl<'a> LocalTables<'a> {
    /// Before the first function.
    pub fn new(alloc: Global) -> Self {
        LocalTables {
            locals: FunctionLocals::new(alloc),
            called: CalledNames::new(alloc),
        }
    }

    /// All locals of the function with these parameters and blocks, and none so far, whatever the function before was.
    pub(crate) fn begin(
        &mut self,
        alloc: Global,
        parameters: &'a [WrittenParameter],
        blocks: &'a [WrittenBlock],
    ) -> Result<(), AllocError>
        ensures gathered { OnOk result (AreGathered self.new.locals) }
        ensures function { OnOk result (locals_of self.new.locals ≡ locals_from 0 (announced (map parameter_view parameters.now) (map block_view blocks.now))) }
        ensures next { self.new.called.next ≡ 0 }
        ensures names { self.new.called.names ≡ [] }
    {
        if self.called.are_many() {
            *self = LocalTables::new(alloc);
        }
        self.called.clear();
        self.locals.gather(alloc, parameters, blocks)
    }
}
