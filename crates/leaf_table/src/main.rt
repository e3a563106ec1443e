//! Prints what the libraries answer that stand on no text and no module, a table a section.
//!
//! It stands on `ir_base`, `ir_tables`, `ir_terminals`, `ir_eval`, `ir_intrinsics`, `ir_memory` and
//! `ir_printf`, and serves to show them. A section begins with a line `== NAME`, which is printed
//! as it is, and has a case a line; the module of that name says how its lines are written. An
//! answer is the line, a colon and what the case comes to; `printf` answers without the line. In
//! `memory` a line that begins with `#` begins new memory. Nothing is promised of the printed text.
//!
//! In the crate's folder:
//!
//! ```text
//! $ printf '== words\nopcode add\n== printf\n%s\t%s\n' '%.5u' 42 | rt run
//! == words
//! opcode add: 1 add
//! == printf
//! [00042]
//! ```
#![tactic(auto)]

mod files;
mod intrinsics;
mod leaf;
mod memory;
mod printf;
mod scalars;
mod tokens;
mod word;
mod words;

use files::Objects;
use memory::Run;
use std::alloc::{AllocError, Global};
use std::io;
use std::io::Read;
use word::shown;

/// The table of a section.
#[derive(Clone, Copy)]
enum Table {
    Files,
    Words,
    Tokens,
    Scalars,
    Intrinsics,
    Memory,
    Printf,
}

/// What is kept from one line to the next: the table, what its calls are made on, and the lines of
/// a text so far.
#[derive(Drop)]
struct Tables {
    table: Table,
    objects: Objects,
    memory: Run,
    given: Vec<u8>,
}

/// The table of the section that the line begins.
fn table_of(line: &[u8]) -> Option<Table> {
    match line {
        b"== files" => Some(Table::Files),
        b"== words" => Some(Table::Words),
        b"== tokens" => Some(Table::Tokens),
        b"== scalars" => Some(Table::Scalars),
        b"== intrinsics" => Some(Table::Intrinsics),
        b"== memory" => Some(Table::Memory),
        b"== printf" => Some(Table::Printf),
        _ => None,
    }
}

impl Tables {
    fn new(alloc: Global) -> Result<Tables, AllocError> {
        Ok(Tables {
            table: Table::Printf,
            objects: Objects::new(alloc)?,
            memory: Run::new(alloc),
            given: Vec::new(alloc),
        })
    }

    /// Takes the next line, and adds what it comes to.
    fn push_line(
        &mut self,
        text: &mut String,
        rt: &HostRuntime,
        line: &[u8],
    ) -> Result<(), AllocError> {
        if let Some(table) = table_of(line) {
            self.end_text(text, rt.alloc())?;
            self.table = table;
            return push_section(text, table, shown(line));
        }
        match self.table {
            Table::Tokens if line == b"====".as_slice() => self.end_text(text, rt.alloc()),
            Table::Tokens => self.add_line(line),
            _ => self.push_row(text, rt, shown(line)),
        }
    }

    /// Adds a line to the text.
    fn add_line(&mut self, line: &[u8]) -> Result<(), AllocError> {
        self.given.extend_from_slice(line)?;
        self.given.push(b'\n')?;
        Ok(())
    }

    /// Ends a text, and adds what it comes to.
    fn end_text(&mut self, text: &mut String, alloc: Global) -> Result<(), AllocError> {
        if matches!(self.table, Table::Tokens) {
            // The line feed before the next text is none of this one.
            self.given.pop();
            tokens::push_answer(text, alloc, self.given.as_slice())?;
            self.given.clear();
        }
        Ok(())
    }

    /// Adds the answer to a line of a table whose cases are lines.
    fn push_row(
        &mut self,
        text: &mut String,
        rt: &HostRuntime,
        line: &str,
    ) -> Result<(), AllocError> {
        match self.table {
            Table::Files => self.objects.push_answer(text, rt, rt.alloc(), line)?,
            Table::Words => words::push_answer(text, line)?,
            Table::Scalars => scalars::push_answer(text, line)?,
            Table::Intrinsics => intrinsics::push_answer(text, line)?,
            Table::Memory => self.memory.push_answer(text, rt.alloc(), line)?,
            Table::Printf => printf::push_answer(text, rt.alloc(), line)?,
            Table::Tokens => {}
        }
        text.push_str("\n")
    }
}

// Adds the line that begins a section. Before the first text there are sizes.
fn push_section(text: &mut String, table: Table, line: &str) -> Result<(), AllocError> {
    write!(text, "{line}\n")?;
    match table {
        Table::Tokens => tokens::push_sizes(text),
        _ => Ok(()),
    }
}

fn without_line_feed(line: &[u8]) -> &[u8] {
    match line {
        [line @ .., b'\n'] => line,
        _ => line,
    }
}

fn main(rt: HostRuntime) -> io::Result<()> {
    let mut input = Vec::new(rt.alloc());
    rt.reader().read_to_end(&mut input)?;
    let mut tables = Tables::new(rt.alloc())?;
    for line in input.as_slice().split_inclusive(|byte| *byte == b'\n') {
        let mut text = String::new(rt.alloc());
        tables.push_line(&mut text, &rt, without_line_feed(line))?;
        print!(rt; "{text}")?;
    }
    let mut text = String::new(rt.alloc());
    tables.end_text(&mut text, rt.alloc())?;
    print!(rt; "{text}")
}
