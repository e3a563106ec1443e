//! The tools, and the options that each has.
ghost use Rattle.std.specs.Prelude.{◌≡◌, Some};
ghost use Rattle.command_line.specs.Tools.{tool_named, tool_name, tool_of, line_name, has, takes, takes_one, needs_file};

use crate::options::{PlainOption, Setting};
use ir_base::Text;

/// A tool, as the first word of the command line names it.
#[derive(Clone, Copy)]
pub enum Tool {
    /// `llvm-as`
    LlvmAs,
    /// `llvm-dis`
    LlvmDis,
    /// `llvm-link`
    LlvmLink,
    /// `llvm-extract`
    LlvmExtract,
    /// `lli`
    Lli,
    /// `llvm-bcanalyzer`
    LlvmBcanalyzer,
}

impl Tool {
    /// The tool that the word names, if there is one.
    pub fn of_word(word: &[u8]) -> Option<Tool>
        ensures { result ≡ tool_named word.now }
    {
        match word {
            b"llvm-as" => Some(Tool::LlvmAs),
            b"llvm-dis" => Some(Tool::LlvmDis),
            b"llvm-link" => Some(Tool::LlvmLink),
            b"llvm-extract" => Some(Tool::LlvmExtract),
            b"lli" => Some(Tool::Lli),
            b"llvm-bcanalyzer" => Some(Tool::LlvmBcanalyzer),
            _ => None,
        }
    }

    /// The word that names the tool.
    pub fn word(self) -> &'static str
        ensures word { result.now ≡ tool_name self }
        ensures named { tool_named result.now ≡ Some self }
    {
        match self {
            Tool::LlvmAs => "llvm-as",
            Tool::LlvmDis => "llvm-dis",
            Tool::LlvmLink => "llvm-link",
            Tool::LlvmExtract => "llvm-extract",
            Tool::Lli => "lli",
            Tool::LlvmBcanalyzer => "llvm-bcanalyzer",
        }
    }

    // It has this option without a value.
    pub(crate) fn has(self, flag: PlainOption) -> bool
        ensures { result ≡ has self flag }
    {
        match flag {
            PlainOption::Text => matches!(self, Tool::LlvmLink | Tool::LlvmExtract),
            PlainOption::Delete | PlainOption::Recursive => matches!(self, Tool::LlvmExtract),
            PlainOption::Dump => matches!(self, Tool::LlvmBcanalyzer),
        }
    }

    // It has this option with a value.
    pub(crate) fn takes(self, setting: Setting) -> bool
        ensures { result ≡ takes self setting }
    {
        match setting {
            Setting::Output => !matches!(self, Tool::Lli | Tool::LlvmBcanalyzer),
            Setting::Function | Setting::Variable | Setting::Alias => {
                matches!(self, Tool::LlvmExtract)
            }
            Setting::MaxSteps => matches!(self, Tool::Lli),
        }
    }

    // At most one input.
    pub(crate) fn takes_one(self) -> bool
        ensures { result ≡ takes_one self }
    {
        !matches!(self, Tool::LlvmLink)
    }

    // At least one input.
    pub(crate) fn needs_file(self) -> bool
        ensures { result ≡ needs_file self }
    {
        matches!(self, Tool::LlvmLink)
    }
}

/// The tool that the words of a command line begin with, if there is one.
pub fn tool_of(words: &[Text]) -> Option<Tool>
    ensures { result ≡ tool_of words.now }
{
    Tool::of_word(words.first()?.bytes())
}

/// The name with which the error line of a command line begins: its tool's word, else `ir-tools`.
pub fn line_name(words: &[Text]) -> &'static str
    ensures { result.now ≡ line_name words.now }
{
    match tool_of(words) {
        Some(tool) => tool.word(),
        None => "ir-tools",
    }
}
