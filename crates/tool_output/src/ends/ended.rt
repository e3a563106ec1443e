//! What a run of a tool ended with.
ghost use Rattle.std.specs.Prelude.{◌≡◌};
ghost use Rattle.tool_output.specs.Ends.Ended.{status_of};

use crate::ends::clash::Clash;
use bit_stream::bits::BitFault;
use command_line::UsageKind;
use ir_base::{Place, Text};
use ir_tables::UndefinedKind;
use module_arena::CountKind;
use std::alloc::AllocError;

/// What a run of a tool ended with. Each but `Ok` and `Exit` has one line on standard error.
///
/// ```
/// Ended::Exit(3) // of `lli` at a program whose main gives 3
/// Ended::BadByte { input, place: Place { line: 1, column: 1 } } // where the input of that name begins with `?`
/// ```
#[derive(Drop)]
pub enum Ended {
    /// The tool did its work.
    Ok,
    /// The program ended with this status.
    Exit(u8),
    /// The program has more steps than it was given.
    StepsUsed,
    /// The program did what has no meaning: this.
    Undefined(UndefinedKind),
    /// The frames of the program's functions would weigh more than 4,194,304 together.
    StackLimit,
    /// More bytes of the program's memory would be live than 2^28.
    MemoryLimit,
    /// The program uses a name, spelled so, that neither it nor the host defines.
    Unresolved(Text),
    /// The program has no function `main` that can be entered.
    NoMain,
    /// The words have this fault, at the word with this number, counted from 0.
    Usage {
        kind: UsageKind,
        word: u64,
    },
    /// The input of this name could not be read.
    CannotRead(Text),
    /// The output of this name could not be written.
    CannotWrite(Text),
    /// The input of this name, or all up to it together, passes this many bytes.
    InputTooLarge {
        input: Text,
        limit: u64,
    },
    /// In the input of this name no token begins at this place.
    BadByte {
        input: Text,
        place: Place,
    },
    /// In the input of this name no item goes on, or begins, with the token at this place.
    NoItemHere {
        input: Text,
        place: Place,
    },
    /// In the input of this name the token at this place, spelled so, begins or is what the language leaves out.
    LeftOutWord {
        input: Text,
        place: Place,
        word: Text,
    },
    /// In the input of this name the token at this place, spelled so in canonical text, names nothing, a value where a
    /// block is asked, or a block where a value is.
    UnknownName {
        input: Text,
        place: Place,
        spelled: Text,
    },
    /// In the input of this name what the token at this place names is named already, first at the place `first`.
    Duplicate {
        input: Text,
        place: Place,
        first: Place,
    },
    /// In the input of this name the token at this place is not the next number, which this is; its digits are these.
    WrongNumber {
        input: Text,
        place: Place,
        next: u64,
        found: Text,
    },
    /// In the input of this name the integer at this place is out of the range of its place.
    ConstantRange {
        input: Text,
        place: Place,
    },
    /// In the input of this name the token at this place opens a type or a constant 65 deep, or names such a type.
    TooDeep {
        input: Text,
        place: Place,
    },
    /// In the input of this name the type at this place is too large.
    TooLarge {
        input: Text,
        place: Place,
    },
    /// In the input of this name the struct at this place holds itself by value.
    SelfContaining {
        input: Text,
        place: Place,
    },
    /// There are so many of these, which is past the limit; in the input of this name, where it is about one.
    TooMany {
        input: Option<Text>,
        kind: CountKind,
        count: u64,
    },
    /// Two inputs have entries of one name that do not go together.
    Conflict(Clash),
    /// In the module of the input of this name the function spelled so is too large: its blocks times its values are these.
    FunctionTooLarge {
        input: Text,
        function: Text,
        size: u64,
    },
    /// In the module of the input of this name the rule of validity of this number does not hold first, at what these words
    /// tell.
    Invalid {
        input: Text,
        rule: u8,
        entity: Text,
    },
    /// The bits of the input of this name are no stream: this field is refused.
    BitFault {
        input: Text,
        fault: BitFault,
    },
    /// The stream that is the input of this name does not begin with the name of this producer.
    ForeignProducer(Text),
    /// The bitcode that is the input of this name has a version that is not read: this.
    BadVersion {
        input: Text,
        version: u64,
    },
    /// In the bitcode that is the input of this name a block with this id has no record of this code; the code is 0 where no block with that id may stand there.
    UnknownRecord {
        input: Text,
        block: u32,
        code: u32,
    },
    /// In the bitcode that is the input of this name, in a block with this id, the record with this index over the stream, counted from 0, breaks the rule of this
    /// number, and none before it.
    BadRecord {
        input: Text,
        block: u32,
        index: u64,
        rule: u8,
    },
    /// No definition of its kind has the selected name that is spelled so in canonical text.
    NoSuchSymbol(Text),
    /// Memory ran out.
    Memory,
}

impl From<AllocError> for Ended {
    ghost use Rattle.tool_output.specs.declared.ends.ended.Ended.TheVariants.{Memory};

    ghost from_gives = { λ _ ended. ended ≡ Memory };

    fn from(_: AllocError) -> Self {
        Ended::Memory
    }
}

/// The process's exit status, and what it stands for.
///
/// ```
/// Report { status: 42, ended: Ended::Exit(42) } // of a program that ends with that status
/// Report { status: 120, ended: Ended::Memory } // where memory ran out
/// ```
#[derive(Drop)]
pub struct Report {
    pub status: u8,
    pub ended: Ended,
}

/// The status of an end.
pub fn status_of(ended: &Ended) -> u8
    ensures { result ≡ status_of ended.now }
{
    match ended {
        Ended::Ok => 0,
        Ended::Exit(status) => *status,
        Ended::StackLimit => 121,
        Ended::MemoryLimit => 122,
        Ended::Unresolved(_) | Ended::NoMain => 123,
        Ended::StepsUsed => 124,
        Ended::Undefined(_) => 125,
        Ended::Usage { .. }
        | Ended::CannotRead(_)
        | Ended::CannotWrite(_)
        | Ended::InputTooLarge { .. }
        | Ended::BadByte { .. }
        | Ended::NoItemHere { .. }
        | Ended::LeftOutWord { .. }
        | Ended::UnknownName { .. }
        | Ended::Duplicate { .. }
        | Ended::WrongNumber { .. }
        | Ended::ConstantRange { .. }
        | Ended::TooDeep { .. }
        | Ended::TooLarge { .. }
        | Ended::SelfContaining { .. }
        | Ended::TooMany { .. }
        | Ended::Conflict(_)
        | Ended::FunctionTooLarge { .. }
        | Ended::Invalid { .. }
        | Ended::BitFault { .. }
        | Ended::ForeignProducer(_)
        | Ended::BadVersion { .. }
        | Ended::UnknownRecord { .. }
        | Ended::BadRecord { .. }
        | Ended::NoSuchSymbol(_) => 1,
        Ended::Memory => 120,
    }
}
