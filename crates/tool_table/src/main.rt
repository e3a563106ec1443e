//! Runs command lines over objects in memory, as a script says, and prints what came of each.
//!
//! It stands on `tool_cli` and `command_line`, and serves to show them: its stored input has the rows of every tool.
//! Nothing is promised of the printed text. A line of the script begins with one of these; others say nothing.
//!
//! | line | what it says |
//! |---|---|
//! | `read WORDS` | prints the command that the words of a command line are read as, or the line of their fault |
//! | `file NAME` | begins a file, and `input` begins standard input; what these hold is said by the lines behind |
//! | `+ TEXT`, `\| TEXT` | this text, and the text with a line feed |
//! | `= HEX` | these bytes, two digits each |
//! | `* N TEXT` | the text so many times |
//! | `each N M TEXT` | for each number from N up to M the text, which has it in place of each `#` |
//! | `sums N M` | for each k from N to M the line `%k = add i32 %(k-2), %(k-1)` |
//! | `fails input N ..` | these calls of standard input fail, counted from 1; so also `files`, `output`, `errors` |
//! | `room output N` | standard output takes so many bytes; so also `errors`. Else each takes 65536 |
//! | `piece N` | standard input gives at most so many bytes a call |
//! | `run WORDS` | runs the words over all this, and prints what came of it |
//! | `clear` | drops all files |
//!
//! Words stand one space apart, a name is a word, and `""` is an empty one. In words and texts `\n` is a line feed,
//! `\\` a backslash and `\xHH` any byte. A run uses up standard input and what was said of calls, room and pieces; files
//! stay as it left them, so that the next run reads what this one wrote.
//!
//! Of a run are printed its status, the files that it read in their order, how many bytes standard input gave where it
//! was touched, each file that it wrote, and what standard output and standard error took, with `|` and `+` as above.
//!
//! In the crate's folder:
//!
//! ```text
//! $ printf 'read llvm-as a.ll\nread lli -\n' | rt run
//! llvm-as a.ll => assemble [a.ll] > [a.bc]
//! lli - => run [-] for 1000000000 with [-]
//! ```
#![tactic(auto)]

mod lines;
mod reading;
mod stage;
mod telling;
mod watched;

use lines::{parts, words_of};
use reading::add_reading;
use stage::Stage;
use std::io;
use std::io::{Read, Write};

fn main(rt: HostRuntime) -> io::Result<()> {
    let alloc = rt.alloc();
    let mut script = Vec::new(alloc);
    rt.reader().read_to_end(&mut script)?;
    let mut stage = Stage::new(alloc);
    for line in script.as_slice().split(|byte| *byte == b'\n') {
        let mut told = Vec::new(alloc);
        match parts(line) {
            (b"read", rest) => add_reading(
                &mut told,
                alloc,
                rest,
                words_of(alloc, rest)?.as_slice(),
            )?,
            (b"run", rest) => stage.run(alloc, rest, &mut told)?,
            (key, rest) => stage.take(alloc, key, rest)?,
        }
        rt.stdout().write_all(told.as_slice())?;
    }
    Ok(())
}
