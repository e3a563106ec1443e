//! What calls on memory answer, one after another.
//!
//! A line is `add SIZE ALIGN KIND`, `end POINTER KIND`, `bounds POINTER`, `seal`, `live`,
//! `load POINTER LEAF ALIGN`, `store POINTER LEAF ALIGN VALUE`, `copy TO FROM COUNT may` or
//! `fill POINTER BYTE COUNT`. A pointer is its block, or `-` for none, a colon and its address. A
//! call whose own conditions do not hold is barred. A line that begins with `#` begins new memory.
ghost use Rattle.std.specs.Prelude.{◌≡◌, ◌+◌, ◌*◌, ◌≤◌, length, IfOk, IsTrue};
ghost use Rattle.ir_memory.specs.Given.{IsAlignment, IsAddress, HasKnown, IsKnown};
ghost use Rattle.ir_memory.specs.Given.{IsLeaf, Fits, CanEnd};
ghost use Rattle.ir_memory.specs.Memory.{first_address, reach};

use crate::leaf::{is_integer, leaf_of};
use crate::word::word;
use ir_eval::{Pointer, Scalar};
use ir_memory::{BlockKind, Leaf, Memory, MemoryFault};
use std::alloc::{AllocError, Global};
use std::fmt;

/// How many blocks a run may make.
const BLOCK_LIMIT: u64 = 1_000_000;

/// What a call answers.
#[derive(Clone, Copy)]
enum Answer {
    /// Nothing but that the call was made.
    Done,
    /// A new block's pointer, what was read, or how many bytes live.
    Value(Scalar),
    /// The addresses of a block's first byte and of the byte after its last.
    Span(u64, u64),
    /// The pointer has no live block.
    Nothing,
}

/// Why a call answers nothing.
#[derive(Clone, Copy)]
enum Refusal {
    /// The line is no call.
    NoCall,
    /// The call's own conditions do not hold.
    Barred,
    /// Memory refused.
    Fault(MemoryFault),
}

impl From<MemoryFault> for Refusal {
    fn from(fault: MemoryFault) -> Refusal {
        Refusal::Fault(fault)
    }
}

impl fmt::Display for Answer {
    fn fmt<W: fmt::Write>(&self, f: &mut fmt::Formatter<W>) -> fmt::Result {
        match *self {
            Answer::Done => write!(f, "done"),
            Answer::Value(Scalar::Int(number)) => write!(f, "{number}"),
            Answer::Value(Scalar::Ptr(pointer)) => write_pointer(f, pointer),
            Answer::Value(Scalar::Poison) => write!(f, "poison"),
            Answer::Span(start, end) => write!(f, "{start} to {end}"),
            Answer::Nothing => write!(f, "none"),
        }
    }
}

fn write_pointer<W: fmt::Write>(f: &mut fmt::Formatter<W>, pointer: Pointer) -> fmt::Result {
    let address = pointer.address;
    match pointer.block {
        Some(block) => write!(f, "{block}:{address}"),
        None => write!(f, "-:{address}"),
    }
}

impl fmt::Display for Refusal {
    fn fmt<W: fmt::Write>(&self, f: &mut fmt::Formatter<W>) -> fmt::Result {
        match *self {
            Refusal::NoCall => write!(f, "no such call"),
            Refusal::Barred => write!(f, "barred"),
            Refusal::Fault(fault) => write!(f, "{fault}"),
        }
    }
}

fn number(word: &str) -> Result<u64, Refusal> {
    match word.parse::<u64>() {
        Ok(number) => Ok(number),
        Err(_) => Err(Refusal::NoCall),
    }
}

fn scalar(word: &str) -> Result<Scalar, Refusal> {
    match leaf_of(word) {
        Some(leaf) => Ok(leaf),
        None => Err(Refusal::NoCall),
    }
}

fn kind(word: &str) -> Result<BlockKind, Refusal> {
    match word {
        "variable" => Ok(BlockKind::Variable(false)),
        "constant" => Ok(BlockKind::Variable(true)),
        "stack" => Ok(BlockKind::Stack),
        "heap" => Ok(BlockKind::Heap),
        _ => Err(Refusal::NoCall),
    }
}

// The kind of a block that may be ended.
fn ended_kind(word: &str) -> Result<BlockKind, Refusal>
    ensures { IfOk result CanEnd }
{
    match kind(word)? {
        BlockKind::Variable(_) => Err(Refusal::Barred),
        kind => Ok(kind),
    }
}

fn alignment(word: &str) -> Result<u32, Refusal>
    ensures { IfOk result IsAlignment }
{
    let number = number(word)?;
    for power in 0..17u32 {
        let align: u32 = 1 << power;
        if number == u64::from(align) {
            return Ok(align);
        }
    }
    Err(Refusal::Barred)
}

// `ptr`, or `i` and a width in bits.
fn leaf(word: &str) -> Result<Leaf, Refusal>
    ensures { IfOk result IsLeaf }
{
    if word == "ptr" {
        return Ok(Leaf::Ptr);
    }
    let width = number(word.strip_prefix("i").unwrap_or(""))?;
    if 1 <= width && width <= 128 {
        Ok(Leaf::Int(width as u8))
    } else {
        Err(Refusal::Barred)
    }
}

fn fits(leaf: Leaf, value: Scalar) -> bool
    ensures { IsTrue result → Fits leaf value }
{
    match leaf {
        Leaf::Int(width) => is_integer(width, value),
        Leaf::Ptr => matches!(value, Scalar::Ptr(_) | Scalar::Poison),
    }
}

/// Memory, and how many blocks it has made.
#[derive(Drop)]
pub struct Run {
    memory: Memory,
    made: u64,
    ghost known: { made ≤ length memory.list },
    ghost low: { memory.next ≤ first_address + made * reach },
}

impl Run {
    /// New memory.
    pub fn new(alloc: Global) -> Run {
        Run {
            memory: Memory::new(alloc),
            made: 0,
        }
    }

    /// Adds the answer to the line, whose call is made where its conditions hold.
    pub fn push_answer(
        &mut self,
        text: &mut String,
        alloc: Global,
        line: &str,
    ) -> Result<(), AllocError> {
        if line.starts_with('#') {
            *self = Run::new(alloc);
            return text.push_str(line);
        }
        match self.answer(line) {
            Ok(answer) => write!(text, "{line}: {answer}"),
            Err(refusal) => write!(text, "{line}: {refusal}"),
        }
    }

    fn answer(&mut self, line: &str) -> Result<Answer, Refusal> {
        match word(line, 0) {
            "add" => self.add(line),
            "end" => self.end(line),
            "bounds" => self.bounds(line),
            "seal" => {
                self.memory.seal_constants();
                Ok(Answer::Done)
            }
            "load" => self.load(line),
            "store" => self.store(line),
            "copy" => self.copy(line),
            "fill" => self.fill(line),
            "live" => Ok(Answer::Value(Scalar::Int(u128::from(self.memory.live_bytes())))),
            _ => Err(Refusal::NoCall),
        }
    }

    fn is_known(&self, pointer: Pointer) -> bool
        ensures { IsTrue result → IsKnown self.now.memory.list pointer }
    {
        match pointer.block {
            Some(block) => block < self.made,
            None => true,
        }
    }

    fn address(&self, word: &str) -> Result<Scalar, Refusal>
        ensures { IfOk result (IsAddress self.now.memory.list) }
    {
        match scalar(word)? {
            Scalar::Ptr(pointer) if self.is_known(pointer) => Ok(Scalar::Ptr(pointer)),
            Scalar::Poison => Ok(Scalar::Poison),
            _ => Err(Refusal::Barred),
        }
    }

    fn value(&self, word: &str) -> Result<Scalar, Refusal>
        ensures { IfOk result (HasKnown self.now.memory.list) }
    {
        match scalar(word)? {
            Scalar::Ptr(pointer) if !self.is_known(pointer) => Err(Refusal::Barred),
            value => Ok(value),
        }
    }

    fn add(&mut self, line: &str) -> Result<Answer, Refusal> {
        let size = number(word(line, 1))?;
        let align = alignment(word(line, 2))?;
        let kind = kind(word(line, 3))?;
        if self.made >= BLOCK_LIMIT {
            return Err(Refusal::Barred);
        }
        let pointer = self.memory.add_block(size, align, kind)?;
        self.made += 1;
        Ok(Answer::Value(Scalar::Ptr(pointer)))
    }

    fn end(&mut self, line: &str) -> Result<Answer, Refusal> {
        let pointer = self.address(word(line, 1))?;
        let kind = ended_kind(word(line, 2))?;
        self.memory.end_block(pointer, kind)?;
        Ok(Answer::Done)
    }

    fn bounds(&self, line: &str) -> Result<Answer, Refusal> {
        match scalar(word(line, 1))? {
            Scalar::Ptr(pointer) if self.is_known(pointer) => Ok(span(self.memory.bounds(pointer))),
            _ => Err(Refusal::Barred),
        }
    }

    fn load(&self, line: &str) -> Result<Answer, Refusal> {
        let address = self.address(word(line, 1))?;
        let leaf = leaf(word(line, 2))?;
        let align = alignment(word(line, 3))?;
        match self.memory.load(address, leaf, align) {
            Ok(value) => Ok(Answer::Value(value)),
            Err(kind) => Err(Refusal::Fault(MemoryFault::Undefined(kind))),
        }
    }

    fn store(&mut self, line: &str) -> Result<Answer, Refusal> {
        let address = self.address(word(line, 1))?;
        let leaf = leaf(word(line, 2))?;
        let align = alignment(word(line, 3))?;
        let value = self.value(word(line, 4))?;
        if !fits(leaf, value) {
            return Err(Refusal::Barred);
        }
        self.memory.store(address, leaf, align, value)?;
        Ok(Answer::Done)
    }

    fn copy(&mut self, line: &str) -> Result<Answer, Refusal> {
        let to = self.address(word(line, 1))?;
        let from = self.address(word(line, 2))?;
        let count = number(word(line, 3))?;
        self.memory.copy(to, from, count, word(line, 4) == "may")?;
        Ok(Answer::Done)
    }

    fn fill(&mut self, line: &str) -> Result<Answer, Refusal> {
        let to = self.address(word(line, 1))?;
        let byte = (number(word(line, 2))? % 256) as u8;
        let count = number(word(line, 3))?;
        self.memory.fill(to, byte, count)?;
        Ok(Answer::Done)
    }
}

fn span(found: Option<(u64, u64)>) -> Answer {
    match found {
        Some((start, end)) => Answer::Span(start, end),
        None => Answer::Nothing,
    }
}
