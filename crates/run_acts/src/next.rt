//! What an instruction comes to.
ghost use Rattle.std.specs.Prelude.{◌≡◌};
ghost use Rattle.run_acts.specs.Said.{end_of};

use ir_tables::UndefinedKind;
use run_rules::End;

/// How a call or an instruction ends a run. `End` has the other ends, too: those of opening, and that all steps are made.
///
/// ```
/// Stop::Exit(3) // of a call of `exit` with 3
/// Stop::Undefined(UndefinedKind::DivisionByZero) // of `udiv i32 %x, 0`
/// ```
#[derive(Clone, Copy)]
pub enum Stop {
    /// The program ended with this status.
    Exit(u8),
    /// What it did is undefined.
    Undefined(UndefinedKind),
    /// The frames would weigh more than they may.
    StackLimit,
    /// The live blocks would have more bytes than they may.
    MemoryLimit,
}

impl Stop {
    /// The end.
    pub fn end(self) -> End
        ensures { result ≡ end_of self }
    {
        match self {
            Stop::Exit(status) => End::Exit(status),
            Stop::Undefined(kind) => End::Undefined(kind),
            Stop::StackLimit => End::StackLimit,
            Stop::MemoryLimit => End::MemoryLimit,
        }
    }
}

/// What an instruction comes to. What it writes is handed on apart.
///
/// ```
/// Next::Gets(4) // of a call of `getchar` whose result is the leaf 4 of the caller
/// Next::Stops(Stop::Exit(3)) // of the `ret i32 3` of `main`, where nothing is due
/// ```
#[derive(Clone, Copy)]
pub enum Next {
    /// The run goes on.
    Goes,
    /// The newest frame gets a byte of the input, at that place.
    Gets(u32),
    /// The run is over.
    Stops(Stop),
}

/// The program is undefined. It stands apart, so that an instruction that goes on does not ask again whether it does.
#[cold]
#[inline(never)]
pub(crate) fn fails(kind: UndefinedKind) -> Next
    ensures { result ≡ Next.Stops (Stop.Undefined kind) }
{
    Next::Stops(Stop::Undefined(kind))
}
