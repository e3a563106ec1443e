//! Opening.
ghost use Rattle.std.specs.Prelude.{◌≡◌, ◌++◌, ◌∷◌, ◌≤◌, [], IfOk, map, true};
ghost use Rattle.ir_memory.specs.Memory.{no_blocks};
ghost use Rattle.module_arena.specs.View.{module_of};
ghost use Rattle.run_acts.specs.Dues.{due_of};
ghost use Rattle.run_initial.specs.Contents.Placed.{ArePlaced, Fills};
ghost use Rattle.run_names.specs.Entry.Mains.{main_seen};
ghost use Rattle.run_names.specs.Told.{alone};
ghost use Rattle.ir_run.specs.Arguments.{behind_variables};
ghost use Rattle.ir_run.specs.Opens.{Opens};
ghost use Rattle.run_rules.specs.Opening.{opened, opened_main, opening_core, with_variables};
ghost use Rattle.run_rules.specs.Plan.{main_in, plan};
ghost use Rattle.run_rules.specs.State as rules;

use crate::arguments::place_main;
use crate::order::constructors;
use ir_base::TextList;
use ir_memory::Memory;
use run_acts::{DueCall, DueCalls};
use run_initial::contents::{place_variables, put_contents};
use run_initial::missing::missing_name;
use run_names::Names;
use run_names::entry::{MainFunction, main_of};
use run_rules::End;
use std::alloc::{AllocError, Global};

/// A run before its first instruction: memory, and what is due.
#[derive(Drop)]
pub struct OpenRun {
    pub memory: Memory,
    pub due: DueCalls,
}

/// The constructors, and main behind them.
fn due_calls(alloc: Global, names: &Names<'_>, main: DueCall) -> Result<DueCalls, AllocError>
    ensures { IfOk result (λ due. due ≡ map rules.Constructor (plan (alone (module_of names.now))).constructors ++ due_of main ∷ []) }
{
    let first = constructors(alloc, names)?;
    let mut calls = Vec::new(alloc);
    'each: for constructor in &first {
        calls.push(DueCall::Constructor(constructor.address))?;
    }
    calls.push(main)?;
    Ok(DueCalls::new(calls))
}

/// Gives the variables of a module their blocks, in order; false exactly where too many bytes would live. The next block does not come
/// far behind 2^60.
fn place_all(memory: &mut Memory, names: &Names<'_>) -> Result<bool, AllocError>
    requires { memory.old ≡ no_blocks }
    ensures placed { IfOk result (λ all. Fills all (with_variables (plan (alone (module_of names.now))).variables no_blocks) memory.new) }
    ensures fresh { IfOk result (λ all. all ≡ true → ArePlaced names.now memory.new) }
    ensures near { IfOk result (λ all. all ≡ true → memory.new.next ≤ behind_variables) }
{
    // No variable ends behind 2^60.
    let _spots = names.spots();
    place_variables(memory, names)
}

/// What a run begins with that has a main, or that too many bytes would live: variables, the words, and what variables hold at first.
fn open_with(
    alloc: Global,
    names: &Names<'_>,
    main: MainFunction,
    words: &TextList,
) -> Result<Result<OpenRun, End>, AllocError>
    ensures { IfOk result (λ run. Opens run (opening_core (plan (alone (module_of names.now))) (main_seen main) words.now)) }
{
    let mut memory = Memory::new(alloc);
    let all = place_all(&mut memory, names)?;
    if !all {
        return Ok(Err(End::MemoryLimit));
    }
    let Some(call) = place_main(alloc, &mut memory, main, words)? else {
        return Ok(Err(End::MemoryLimit));
    };
    put_contents(names, &mut memory)?;
    memory.seal_constants();
    let due = due_calls(alloc, names, call)?;
    Ok(Ok(OpenRun { memory, due }))
}

/// The same, or that there is no main.
fn open_main(
    alloc: Global,
    names: &Names<'_>,
    words: &TextList,
) -> Result<Result<OpenRun, End>, AllocError>
    ensures { IfOk result (λ run. Opens run (opened_main (plan (alone (module_of names.now))) (main_in (alone (module_of names.now))) words.now)) }
{
    let program = names.program();
    let Some(main) = main_of(alloc, program)? else {
        return Ok(Err(End::NoMain));
    };
    open_with(alloc, names, main, words)
}

/// What a run begins with, or how it ends before it has begun: a name that is missing comes first, then that there is no main, then the
/// limit on live bytes. The words are those of the program, the first its name.
///
/// It is refused for want of memory alone.
pub fn open_run(
    alloc: Global,
    names: &Names<'_>,
    words: &TextList,
) -> Result<Result<OpenRun, End>, AllocError>
    ensures { IfOk result (λ run. Opens run (opened (plan (alone (module_of names.now))) words.now)) }
{
    let Some(missing) = missing_name(alloc, names)? else {
        return open_main(alloc, names, words);
    };
    let arena = names.program().arena();
    let unresolved = arena.name(missing).copy(alloc)?;
    Ok(Err(End::Unresolved(unresolved)))
}
