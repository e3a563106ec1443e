//! What a call answers.
use module_arena::{ArenaFault, GlobalId};
use std::alloc::{AllocError, AllocFailed};
use type_table::TypeFault;

/// What a call answers.
#[derive(Drop)]
pub enum Answer {
    /// What was added or found, by its kind and number.
    Numbered(&'static str, u64),
    /// A word: `done`, `none`, `true`, `false`, `fits` or `does not fit`.
    Said(&'static str),
    /// What was asked for, as it is printed.
    Shown(String),
}

/// Why a call answers nothing.
#[derive(Clone, Copy)]
pub enum Refusal {
    /// The line is no call, names what is not there, or sets what is set.
    NoCall,
    /// The table of types refused.
    Types(TypeFault),
    /// The arena refused.
    Arena(ArenaFault),
}

impl From<TypeFault> for Refusal {
    fn from(fault: TypeFault) -> Refusal {
        Refusal::Types(fault)
    }
}

impl From<ArenaFault> for Refusal {
    fn from(fault: ArenaFault) -> Refusal {
        Refusal::Arena(fault)
    }
}

impl From<AllocError> for Refusal {
    fn from(_failed: AllocError) -> Refusal {
        Refusal::Arena(ArenaFault::Memory)
    }
}

impl<T: Drop> From<AllocFailed<T>> for Refusal {
    fn from(_failed: AllocFailed<T>) -> Refusal {
        Refusal::Arena(ArenaFault::Memory)
    }
}

/// Whether it is so.
pub fn is(answer: bool) -> Answer {
    Answer::Said(if answer { "true" } else { "false" })
}

/// What was found of that kind, where something was.
pub fn found(kind: &'static str, number: Option<u64>) -> Answer {
    match number {
        Some(number) => Answer::Numbered(kind, number),
        None => Answer::Said("none"),
    }
}

/// The kind and the number of an entry.
pub fn kind_and_number(id: GlobalId) -> (&'static str, u64) {
    match id {
        GlobalId::Variable(id) => ("variable", u64::from(id.number())),
        GlobalId::Function(id) => ("function", u64::from(id.number())),
        GlobalId::Alias(id) => ("alias", u64::from(id.number())),
    }
}

/// An entry, by its kind and number.
pub fn entry(id: GlobalId) -> Answer {
    let (kind, number) = kind_and_number(id);
    Answer::Numbered(kind, number)
}

/// Adds an answer: a number without its kind where all that is numbered is a type or a struct.
pub fn push_answer(text: &mut String, bare: bool, answer: &Answer) -> Result<(), AllocError> {
    match answer {
        Answer::Numbered(_, number) if bare => write!(text, "{number}"),
        Answer::Numbered(kind, number) => write!(text, "{kind} {number}"),
        Answer::Said(word) => text.push_str(word),
        Answer::Shown(shown) => text.push_str(shown.as_str()),
    }
}

/// Adds a refusal.
pub fn push_refusal(text: &mut String, bare: bool, refusal: Refusal) -> Result<(), AllocError> {
    match refusal {
        Refusal::NoCall => text.push_str("no such call"),
        Refusal::Types(fault) if bare => write!(text, "{fault}"),
        Refusal::Types(fault) => write!(text, "refused, {fault}"),
        Refusal::Arena(fault) => push_arena_fault(text, fault),
    }
}

fn push_arena_fault(text: &mut String, fault: ArenaFault) -> Result<(), AllocError> {
    match fault {
        ArenaFault::Duplicate(id) => {
            let (kind, number) = kind_and_number(id);
            write!(text, "refused, there is {kind} {number}")
        }
        ArenaFault::TooMany { kind, count } => write!(text, "refused, {count} {kind:?}"),
        ArenaFault::Memory => text.push_str("out of memory"),
    }
}
