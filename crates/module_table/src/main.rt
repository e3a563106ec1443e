//! Reads cases that are texts of modules, and prints for each what its head line asks for.
//!
//! It stands on `ir_resolve`, `ir_printer`, `path_verify`, `linkage_rules` and `linkage_rules::resolving`, and serves to show them: its stored
//! input has each phrase, texts that break each rule in each place, and parts with each pair of linkages and each kind of conflict,
//! and its stored output is written by hand (`tests/canonical.py`, `tests/validity.py`, `tests/linkage.py`). Nothing is promised of
//! the printed text. A case is a head line and the lines behind it; what stands before any head line is a script of parts.
//!
//! | head line | the case | what is printed |
//! |---|---|---|
//! | `==== canonical` | a text | its canonical text, or that it is no module; then a line `====` |
//! | `==== valid` | a text; a line `# N TEXT` stands for N lines, each the text with its number, from 0, in place of each `#` | `ok`, or the first function that is too large or the first rule that does not hold |
//! | `==== linked` | a script of parts | what is asked of the parts |
//!
//! A line of a script begins with one of these; others say nothing.
//!
//! | line | what it says |
//! |---|---|
//! | `clear` | drops all parts |
//! | `part` | begins a part, whose text is said by the lines behind |
//! | `\| TEXT`, `+ TEXT` | this text with a line feed, and without |
//! | `conflict` | asks for the conflict that is told |
//! | `symbols` | asks for all symbols in their order |
//! | `home NAME` | asks where the shared symbol of that name is defined |
//! | `own PART NAME` | asks where the part's own symbol of that name is defined |
//! | `bind PART NAME` | asks what the name means in the part |
//! | `places` | asks where each symbol stands |
//!
//! Parts are told by number, from 0. A name is the rest of its line. In names and texts `\\` is a backslash and `\xHH` any byte.
//! Behind each question stands its answer, which is the conflict where the parts are in conflict.
//!
//! In the crate's folder:
//!
//! ```text
//! $ printf '==== canonical\n@x = global i8 255\n' | rt run
//! @x = global i8 -1
//! ====
//! ```
#![tactic(auto)]

mod answering;
mod canonical_text;
mod faults;
mod lines;
mod meaning;
mod placing;
mod reading;
mod repeating;
mod stage;
mod symbols;
mod telling;
mod validity;

use canonical_text::print_canonical;
use stage::print_linked;
use std::io;
use std::io::Read;
use validity::print_validity;

/// What is asked of a case.
#[derive(Clone, Copy)]
enum Question {
    /// The canonical text of a module.
    Canonical,
    /// Whether a module is valid.
    Valid,
    /// The answers about modules that are linked.
    Linked,
}

/// What a head line asks for; none where the line is no head line.
fn question_of(line: &[u8]) -> Option<Question> {
    match line {
        b"==== canonical\n" => Some(Question::Canonical),
        b"==== valid\n" => Some(Question::Valid),
        b"==== linked\n" => Some(Question::Linked),
        _ => None,
    }
}

/// Prints what is asked of a case.
fn answer(rt: &HostRuntime, question: Question, case: &[u8]) -> io::Result<()> {
    match question {
        Question::Canonical => print_canonical(rt, case),
        Question::Valid => print_validity(rt, case),
        Question::Linked => print_linked(rt, case),
    }
}

fn main(rt: HostRuntime) -> io::Result<()> {
    let mut input = Vec::new(rt.alloc());
    rt.reader().read_to_end(&mut input)?;
    let mut question = Question::Linked;
    let mut case = Vec::new(rt.alloc());
    for line in input.as_slice().split_inclusive(|byte| *byte == b'\n') {
        match question_of(line) {
            Some(next) => {
                answer(&rt, question, case.as_slice())?;
                question = next;
                case.clear();
            }
            None => case.extend_from_slice(line)?,
        }
    }
    answer(&rt, question, case.as_slice())
}
