//! What a run has answered.
ghost use Rattle.std.specs.Prelude.{◌≡◌, IfOk, IfSome, Ok};
ghost use Rattle.std.specs.Option.{option_map};
ghost use Rattle.run_rules.specs.Machine.{again, remembered};
ghost use Rattle.run_actions.specs.Ends.Ends.{IsOfRuns};
ghost use Rattle.run_actions.specs.Passing.Told.{told_seen};

use ir_tables::UndefinedKind;
use run_rules::{End, RunFault};

/// An end or a fault that a run has answered. `End` cannot be told twice, since it may hold a name; a run that has begun has no such end.
#[derive(Clone, Copy)]
pub enum ToldEnd {
    /// The program ended with this status.
    Exit(u8),
    /// What it did is undefined.
    Undefined(UndefinedKind),
    /// The steps are used up.
    StepsUsed,
    /// The frames would weigh more than they may.
    StackLimit,
    /// The live blocks would have more bytes than they may.
    MemoryLimit,
    /// A read or a write failed, or memory ran out.
    Failed(RunFault),
}

/// The end of a run as one that may be told again.
fn told_of(end: &End) -> ToldEnd
    requires { IsOfRuns end.now }
    ensures { told_seen result ≡ Ok end.now }
{
    match end {
        End::Exit(status) => ToldEnd::Exit(*status),
        End::Undefined(kind) => ToldEnd::Undefined(*kind),
        End::StepsUsed => ToldEnd::StepsUsed,
        End::StackLimit => ToldEnd::StackLimit,
        End::MemoryLimit => ToldEnd::MemoryLimit,
        End::Unresolved(_) | End::NoMain => unreachable!(),
    }
}

impl ToldEnd {
    /// What a run answered. No run that has begun ends for a name that is missing, or for want of main.
    pub fn of_run(answer: &Result<End, RunFault>) -> ToldEnd
        requires { IfOk answer.now IsOfRuns }
        ensures { told_seen result ≡ answer.now }
    {
        match answer {
            Ok(end) => told_of(end),
            Err(fault) => ToldEnd::Failed(*fault),
        }
    }

    /// What a step answered, where that is an end or a fault, or else None.
    pub fn of_step(answer: &Result<Option<End>, RunFault>) -> Option<ToldEnd>
        requires { IfOk answer.now (λ end. IfSome end IsOfRuns) }
        ensures { option_map told_seen result ≡ remembered answer.now }
    {
        match answer {
            Ok(None) => None,
            Ok(Some(end)) => Some(told_of(end)),
            Err(fault) => Some(ToldEnd::Failed(*fault)),
        }
    }

    /// The answer of a run.
    pub fn answer(self) -> Result<End, RunFault>
        ensures { result ≡ told_seen self }
    {
        match self {
            ToldEnd::Exit(status) => Ok(End::Exit(status)),
            ToldEnd::Undefined(kind) => Ok(End::Undefined(kind)),
            ToldEnd::StepsUsed => Ok(End::StepsUsed),
            ToldEnd::StackLimit => Ok(End::StackLimit),
            ToldEnd::MemoryLimit => Ok(End::MemoryLimit),
            ToldEnd::Failed(fault) => Err(fault),
        }
    }

    /// The answer of a step.
    pub fn step_answer(self) -> Result<Option<End>, RunFault>
        ensures { result ≡ again (told_seen self) }
    {
        match self.answer() {
            Ok(end) => Ok(Some(end)),
            Err(fault) => Err(fault),
        }
    }
}
