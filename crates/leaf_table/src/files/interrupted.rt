//! Streams that answer what the host seldom does.
use crate::word::{number, word};
use ir_base::{Failed, Sink, Source, StdSink, StdSource};
use std::alloc::AllocError;
use std::io;
use std::io::{ErrorKind, Read, Write};

/// A stream that is interrupted a number of times before each of its calls does its work. A call
/// moves at most `count` bytes, and a flush may fail.
#[derive(Drop)]
struct Interrupted {
    times: u64,
    left: u64,
    count: usize,
    flushes: bool,
    taken: u32,
}

impl Interrupted {
    fn is_interrupted(&mut self) -> bool {
        if self.left == 0 {
            self.left = self.times;
            return false;
        }
        self.left -= 1;
        true
    }
}

impl Read for Interrupted {
    fn read(&mut self, into: &mut [u8]) -> io::Result<usize> {
        if self.is_interrupted() {
            return Err(io::Error::from(ErrorKind::Interrupted));
        }
        Ok(self.count.min(into.len()))
    }
}

impl Write for Interrupted {
    fn write(&mut self, piece: &[u8]) -> io::Result<usize> {
        if self.is_interrupted() {
            return Err(io::Error::from(ErrorKind::Interrupted));
        }
        self.taken = self.taken.saturating_add(1);
        Ok(self.count.min(piece.len()))
    }

    fn flush(&mut self) -> io::Result<()> {
        if self.is_interrupted() {
            return Err(io::Error::from(ErrorKind::Interrupted));
        }
        if self.flushes {
            Ok(())
        } else {
            Err(io::Error::from(ErrorKind::Other))
        }
    }
}

/// Adds what one call on such a stream gives: `interrupted_read TIMES COUNT` reads into two bytes,
/// and `interrupted_write TIMES COUNT FLUSHES` writes two, and says how often bytes were taken.
pub fn push_answer(text: &mut String, line: &str) -> Result<(), AllocError> {
    let times = number(word(line, 1));
    let mut stream = Interrupted {
        times,
        left: times,
        count: number(word(line, 2)) as usize,
        flushes: word(line, 3) == "flushes",
        taken: 0,
    };
    if word(line, 0) == "interrupted_read" {
        let mut into = [7u8; 2];
        return push_count(text, StdSource::new(stream).read(&mut into));
    }
    let outcome = StdSink::new(&mut stream).write(b"ab");
    push_count(text, outcome)?;
    write!(text, ", taken {}", stream.taken)
}

fn push_count(text: &mut String, outcome: Result<usize, Failed>) -> Result<(), AllocError> {
    match outcome {
        Ok(count) => write!(text, "{count}"),
        Err(Failed) => text.push_str("failed"),
    }
}
