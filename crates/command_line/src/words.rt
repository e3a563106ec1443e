//! The words of the command line, from the left.
ghost use Rattle.std.specs.Prelude.{◌≡◌, ℕ, ◌<◌, ◌+◌, ◌^◌, drop, length, [], IfOk, slice_get};
ghost use Rattle.std.specs.Option.{option_copied};
ghost use Rattle.command_line.specs.Faults.{IsFirstFault};
ghost use Rattle.command_line.specs.Commands.{IsReadAs, IsJudged, IsUnlessMemory};
ghost use Rattle.command_line.specs.Reading.{Answers, ReadsGiven, scan, reading};

use crate::given::GivenWords;
use crate::{Command, Tool, UsageKind, WordsFault, tool_of};
use ir_base::Text;
use std::alloc::Global;

fn word_at(words: &[Text], at: usize) -> Option<&Text>
    ensures { option_copied result ≡ slice_get words.now at }
{
    words.get(at)
}

// What the words behind the tool's give.
fn given_by(alloc: Global, tool: Tool, words: &[Text]) -> Result<GivenWords, WordsFault>
    requires some { 0 < length words.now }
    requires few { length words.now + 1 < 2 ^ 64 }
    ensures { ReadsGiven tool result (scan tool [] (drop 1 words.now)) }
{
    let mut given = GivenWords::new(alloc, tool);
    let mut at = 1;
    'reading: while at < words.len() {
        at += given.take(alloc, &words[at], word_at(words, at + 1), at as u64)?;
    }
    if given.lacks_file() {
        return Err(WordsFault::Usage {
            kind: UsageKind::NoFile,
            word: words.len() as u64,
        });
    }
    Ok(given)
}

// The whole line, by its tool and the words behind it.
fn read(alloc: Global, words: &[Text]) -> Result<Command, WordsFault>
    ensures { Answers result (reading words.now) }
{
    let Some(tool) = tool_of(words) else {
        return Err(WordsFault::Usage {
            kind: UsageKind::NoTool,
            word: 0,
        });
    };
    let given = given_by(alloc, tool, words)?;
    Ok(given.command(alloc)?)
}

/// Reads the words of the command line after the program's own name.
///
/// A refusal tells the first fault from the left, and of one word the first in the order of
/// `UsageKind`. Words are counted from 0, the tool's own.
pub fn read_words(alloc: Global, words: &[Text]) -> Result<Command, WordsFault>
    ensures command { IfOk result (λ command. IsReadAs words.now command) }
    ensures usage { (kind : UsageKind) (k : ℕ) → result ≡ Err (WordsFault.Usage kind k)
        → IsFirstFault words.now kind k }

    // Where the words are a command, or have a first fault, that is the answer, or want of memory.
    ensures is_command { (command : Command) → IsReadAs words.now command
        → IsUnlessMemory result (Ok command) }
    ensures is_usage { (kind : UsageKind) (k : ℕ) → IsFirstFault words.now kind k
        → IsUnlessMemory result (Err (WordsFault.Usage kind k)) }

    // All words are the one or have the other.
    ensures judged { IsJudged words.now }
{
    read(alloc, words)
}
