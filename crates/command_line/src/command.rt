//! What the words ask for, and what may be wrong with them.
ghost use Rattle.std.specs.Prelude.{◌≡◌};
ghost use Rattle.command_line.specs.Kinds.{kind_words};

use ir_base::{NameList, Text, TextList};
use std::alloc::{AllocError, AllocFailed};
use thiserror::Error;

/// What is wrong with a word. Of one word the kind that stands first is told.
#[derive(Clone, Copy, Debug)]
pub enum UsageKind {
    /// There is no word, or the first one names no tool.
    NoTool,
    /// An option that the tool does not have.
    UnknownOption,
    /// An option whose value is not there, or is none that the option can have.
    MissingValue,
    /// A number of steps that is no number, or one above 2^32.
    BadNumber,
    /// What may be given once is given again.
    Repeated,
    /// A second file, where the tool takes one.
    TooManyFiles,
    /// No file is named. It is told behind the last word.
    NoFile,
}

impl UsageKind {
    /// The kind in words, as the error line has it.
    pub fn words(self) -> &'static str
        ensures { result.now ≡ kind_words self }
    {
        match self {
            UsageKind::NoTool => "no tool",
            UsageKind::UnknownOption => "unknown option",
            UsageKind::MissingValue => "missing value",
            UsageKind::BadNumber => "bad number",
            UsageKind::Repeated => "repeated",
            UsageKind::TooManyFiles => "too many files",
            UsageKind::NoFile => "no file",
        }
    }
}

/// The first fault of the words with the number of its word, counted from 0, or want of memory.
#[derive(Clone, Copy, Debug, Error)]
pub enum WordsFault {
    /// What is wrong, and the number of the word.
    #[error("usage: {} at word {word}", .kind.words())]
    Usage { kind: UsageKind, word: u64 },
    /// Memory ran out.
    #[error("out of memory")]
    Memory,
}

impl From<AllocError> for WordsFault {
    ghost use Rattle.command_line.specs.declared.command.WordsFault.TheVariants.{Memory};

    ghost from_gives = { λ _ fault. fault ≡ Memory };

    fn from(_: AllocError) -> Self {
        WordsFault::Memory
    }
}

impl<T: Drop> From<AllocFailed<T>> for WordsFault {
    ghost use Rattle.command_line.specs.declared.command.WordsFault.TheVariants.{Memory};

    ghost from_gives = { λ _ fault. fault ≡ Memory };

    fn from(_: AllocFailed<T>) -> Self {
        WordsFault::Memory
    }
}

/// Where the result goes.
///
/// ```
/// OutputName::File(Text::from_slice(alloc, b"x.bc")?) // `-o x.bc`
/// OutputName::Standard // `-o -`
/// ```
#[derive(Drop)]
pub enum OutputName {
    /// Standard output, written `-`.
    Standard,
    /// A file of this name.
    File(Text),
}

/// Which definitions `llvm-extract` keeps: those of these names, with `recursive` also the functions
/// that chosen functions call, and with `delete` all others in their place.
///
/// ```
/// // `--func=f --recursive`, where `functions` holds `f` and the other two lists are empty
/// SelectionWords { functions, variables, aliases, delete: false, recursive: true }
/// ```
#[derive(Drop)]
pub struct SelectionWords {
    pub functions: NameList,
    pub variables: NameList,
    pub aliases: NameList,
    pub delete: bool,
    pub recursive: bool,
}

/// What the program is to do. Standard input as an input is the text `-`. `text` says that canonical
/// text is written in place of bitcode. `arguments` begin with the module's name as written. `dump` says
/// that the whole tree is told, and not its counts alone.
///
/// ```
/// // `llvm-as a.ll -o -`, whose input is `a.ll`
/// Command::Assemble { input, output: OutputName::Standard }
/// // `lli a.ll b`, whose input is `a.ll` and whose arguments are `a.ll` and `b`
/// Command::Lli { input, max_steps: 1_000_000_000, arguments }
/// ```
#[derive(Drop)]
pub enum Command {
    /// `llvm-as`: the text of a module as bitcode.
    Assemble {
        input: Text,
        output: OutputName,
    },
    /// `llvm-dis`: the bitcode of a module as canonical text.
    Disassemble {
        input: Text,
        output: OutputName,
    },
    /// `llvm-link`: several modules as one.
    Link {
        inputs: TextList,
        output: OutputName,
        text: bool,
    },
    /// `llvm-extract`: a part of a module.
    Extract {
        input: Text,
        output: OutputName,
        text: bool,
        selection: SelectionWords,
    },
    /// `lli`: runs a module, for at most so many steps.
    Lli {
        input: Text,
        max_steps: u64,
        arguments: TextList,
    },
    /// `llvm-bcanalyzer`: tells what a stream is made of.
    Analyze {
        input: Text,
        dump: bool,
    },
}
