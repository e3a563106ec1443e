//! Opening: the machine before its first step.
ghost use Rattle.std.specs.Prelude.{◌≡◌, ◌<◌, All, IfOk};
ghost use Rattle.module_arena.specs.View.{module_of};
ghost use Rattle.run_rules.specs.Machine.{new_machine};
ghost use Rattle.ir_run.specs.Opens.{core_opened};
ghost use Rattle.typed_runs.specs.Plans.{AreWords};
ghost use Rattle.ir_run.specs.Fresh.{IsOpenRun};
ghost use Rattle.ir_run.specs.Opened.{IsOpened};
ghost use Rattle.ir_run.specs.Seen.{the_machine};

use crate::beginning::{OpenRun, open_run};
use crate::inside::Inside;
use crate::live::Live;
use crate::machine::Machine;
use ir_base::TextList;
use module_arena::Checked;
use run_actions::stack::Stack;
use run_acts::Buffers;
use run_acts::program::Program;
use run_names::names_of;
use run_rules::End;
use run_rules::traffic::{Input, Output};
use std::alloc::{AllocError, Global};

/// A machine, or how the run ends before it has begun.
#[derive(Drop)]
pub enum OpenedMachine<'m> {
    /// A machine before its first step, with its constructors and main due.
    Ready(Machine<'m>),
    /// The run is over: a name is missing, there is no main, or too many bytes would live.
    Ended(End),
}

/// Bytes are less than 256, which no type of a clause tells.
fn see_bytes(bytes: &[u8])
    ensures { All (λ b. b < 256) bytes.now }
{
    let _count = bytes.len();
}

/// Words are words of bytes.
fn see_words(words: &TextList)
    ensures { AreWords words.now }
{
    'words: for word in words.as_slice() {
        see_bytes(word.bytes());
    }
}

/// A run that was opened.
fn inside_of<'m>(
    alloc: Global,
    program: Program<'m>,
    opened: OpenRun,
) -> Result<Inside<'m>, AllocError>
    requires { IsOpenRun program opened }
    ensures { IfOk result (λ inside. the_machine inside ≡ new_machine (module_of program.entry.lists) (core_opened opened)) }
{
    let input = Input::new(alloc)?;
    let output = Output::new(alloc)?;
    let stack = Stack::new(alloc);
    let OpenRun { memory, due } = opened;
    let room = Buffers {
        leaves: Vec::new(alloc),
        written: Vec::new(alloc),
    };
    let live = Live {
        program,
        stack,
        memory,
        due,
        room,
    };
    Ok(Inside {
        live,
        input,
        output,
        steps: 0,
        is_over: false,
    })
}

impl<'m> Machine<'m> {
    /// Opens a run of a module with these words, the first of which is the program's name. Ended tells that a name is missing, that there
    /// is no main, or that too many bytes would live, in this order.
    ///
    /// It is refused for want of memory alone.
    pub fn open(
        alloc: Global,
        program: &'m Checked,
        words: &TextList,
    ) -> Result<OpenedMachine<'m>, AllocError>
        ensures { IfOk result (λ answer. IsOpened answer (module_of program.now) words.now) }
    {
        // The module is well formed and valid, so that what is opened is typed.
        let _arena = program.arena();
        see_words(words);
        let names = names_of(alloc, program)?;
        let opened = match open_run(alloc, &names, words)? {
            Ok(opened) => opened,
            Err(end) => return Ok(OpenedMachine::Ended(end)),
        };
        let functions = Program::new(alloc, names)?;
        let inside = inside_of(alloc, functions, opened)?;
        Ok(OpenedMachine::Ready(Machine {
            inside,
            answer: None,
        }))
    }
}
