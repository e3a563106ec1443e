//! Prints what tables of types, arenas and the reader of texts answer, a table a section.
//!
//! It stands on `type_table`, `module_arena` and `ir_syntax`, and serves to show them. A section
//! begins with a line `== NAME`, which is printed as it is: `layout` and `arena` have a call a
//! line, whose answer is the line, a colon and what the call gives, and comments, which begin with
//! `--`; `syntax` has texts. The module of that name says how its lines are written. In `arena` a
//! line `new` begins anew, and has no answer. Nothing is promised of the printed text.
//!
//! In the crate's folder:
//!
//! ```text
//! $ printf '== layout\nint 1\nlayout 0\n== arena\nint 32\nint 129\n' | rt run
//! == layout
//! int 1: 0
//! layout 0: size 1, align 1, leaves 1
//! == arena
//! int 32: type 0
//! int 129: no such call
//! ```
#![tactic(auto)]

mod answer;
mod arena;
mod known;
mod layout;
mod syntax;
mod types;
mod word;

use answer::{push_answer, push_refusal};
use layout::Bench;
use module_arena::Arena;
use std::alloc::{AllocError, Global};
use std::io;
use std::io::Read;
use syntax::Asked;
use word::shown;

/// The table of a section.
#[derive(Clone, Copy)]
enum Table {
    Layout,
    Arena,
    Syntax,
}

/// What is kept from one line to the next: the table, what its calls are made on, and the lines of
/// a text so far with what is asked of it.
#[derive(Drop)]
struct Tables {
    table: Table,
    bench: Bench,
    arena: Arena,
    asked: Asked,
    given: Vec<u8>,
}

/// The table of the section that the line begins.
fn section_of(line: &[u8]) -> Option<Table> {
    match line {
        b"== layout" => Some(Table::Layout),
        b"== arena" => Some(Table::Arena),
        b"== syntax" => Some(Table::Syntax),
        _ => None,
    }
}

impl Tables {
    fn new(alloc: Global) -> Tables {
        Tables {
            table: Table::Layout,
            bench: Bench::new(alloc),
            arena: Arena::new(alloc),
            asked: Asked::Counts,
            given: Vec::new(alloc),
        }
    }

    /// Takes the next line, and adds what it comes to.
    fn push_line(
        &mut self,
        text: &mut String,
        alloc: Global,
        line: &[u8],
    ) -> Result<(), AllocError> {
        if let Some(table) = section_of(line) {
            self.end_text(text, alloc)?;
            self.table = table;
            return write!(text, "{}\n", shown(line));
        }
        match self.table {
            Table::Syntax => self.add_line(text, alloc, line),
            _ => self.push_row(text, alloc, shown(line)),
        }
    }

    /// Adds a line to the text, or ends the text before it.
    fn add_line(
        &mut self,
        text: &mut String,
        alloc: Global,
        line: &[u8],
    ) -> Result<(), AllocError> {
        match line {
            b"====" => self.end_text(text, alloc),
            b"==== parts" => {
                self.asked = Asked::Parts;
                Ok(())
            }
            _ => {
                self.given.extend_from_slice(line)?;
                self.given.push(b'\n')?;
                Ok(())
            }
        }
    }

    /// Ends a text, and adds what it comes to.
    fn end_text(&mut self, text: &mut String, alloc: Global) -> Result<(), AllocError> {
        if matches!(self.table, Table::Syntax) {
            // The line feed before the next text is none of this one.
            self.given.pop();
            syntax::push_answer(text, alloc, self.asked, self.given.as_slice())?;
            text.push_str("\n")?;
            self.given.clear();
            self.asked = Asked::Counts;
        }
        Ok(())
    }

    /// Adds the answer to a call, with its line.
    fn push_row(&mut self, text: &mut String, alloc: Global, line: &str) -> Result<(), AllocError> {
        if line.starts_with("--") {
            return write!(text, "{line}\n");
        }
        match self.table {
            Table::Arena if line == "new" => {
                self.arena = Arena::new(alloc);
                Ok(())
            }
            _ => self.push_call(text, alloc, line),
        }
    }

    fn push_call(
        &mut self,
        text: &mut String,
        alloc: Global,
        line: &str,
    ) -> Result<(), AllocError> {
        write!(text, "{line}: ")?;
        let bare = matches!(self.table, Table::Layout);
        let answer = if bare {
            self.bench.answer(alloc, line)
        } else {
            arena::answer(alloc, &mut self.arena, line)
        };
        match answer {
            Ok(answer) => push_answer(text, bare, &answer)?,
            Err(refusal) => push_refusal(text, bare, refusal)?,
        }
        text.push_str("\n")
    }
}

fn without_line_feed(line: &[u8]) -> &[u8] {
    match line {
        [line @ .., b'\n'] => line,
        _ => line,
    }
}

fn main(rt: HostRuntime) -> io::Result<()> {
    let mut input = Vec::new(rt.alloc());
    rt.reader().read_to_end(&mut input)?;
    let mut tables = Tables::new(rt.alloc());
    for line in input.as_slice().split_inclusive(|byte| *byte == b'\n') {
        let mut text = String::new(rt.alloc());
        tables.push_line(&mut text, rt.alloc(), without_line_feed(line))?;
        print!(rt; "{text}")?;
    }
    let mut text = String::new(rt.alloc());
    tables.end_text(&mut text, rt.alloc())?;
    print!(rt; "{text}")
}
