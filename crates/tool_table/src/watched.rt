//! Objects that tell which calls were made of them.

ghost use Rattle.std.specs.Prelude.{None};

use ir_base::{Failed, FileFault, Files, Source, Text, TextList};
use std::alloc::Global;

/// A source that gives at most so many bytes a call, and counts the bytes that it gave.
#[derive(Drop)]
pub struct WatchedSource<I> {
    inner: I,
    piece: usize,
    touched: bool,
    given: u64,
}

impl<I: Source> WatchedSource<I> {
    /// The source, of which nothing was given: `piece` bytes at most a call, and 1 where that is 0.
    pub fn new(inner: I, piece: u64) -> Self {
        WatchedSource {
            inner,
            piece: (piece as usize).max(1),
            touched: false,
            given: 0,
        }
    }

    /// How many bytes it gave, where it was called.
    pub fn given(&self) -> Option<u64> {
        self.touched.then_some(self.given)
    }
}

impl<I: Source> Source for WatchedSource<I> {
    ghost left = { λ _. None };

    ghost faults = { λ source. I.faults source.inner };

    fn read(&mut self, into: &mut [u8]) -> Result<usize, Failed> {
        self.touched = true;
        let room = into.len().min(self.piece);
        if room == 0 {
            return Ok(0);
        }
        let n = self.inner.read(&mut into[..room])?;
        self.given = self.given.saturating_add(n as u64);
        Ok(n)
    }
}

/// Files that keep the names of those that were read and of those that were written.
#[derive(Drop)]
pub struct WatchedFiles<F> {
    inner: F,
    read: TextList,
    written: TextList,
}

impl<F: Files> WatchedFiles<F> {
    /// The files, none of which was read or written yet.
    pub fn new(alloc: Global, inner: F) -> Self {
        WatchedFiles {
            inner,
            read: TextList::new(alloc),
            written: TextList::new(alloc),
        }
    }

    /// The files themselves.
    pub fn inner(&self) -> &F {
        &self.inner
    }

    /// The names of the files that were read, in the order of the calls.
    pub fn read(&self) -> &[Text] {
        self.read.as_slice()
    }

    /// The names of the files that were written, in the order of the calls.
    pub fn written(&self) -> &[Text] {
        self.written.as_slice()
    }
}

impl<F: Files> Files for WatchedFiles<F> {
    ghost contents = { λ files. F.contents files.inner };

    ghost read_faults = { λ files. F.read_faults files.inner };

    ghost write_faults = { λ files. F.write_faults files.inner };

    fn read_file(&mut self, alloc: Global, name: &Text, limit: u64) -> Result<Text, FileFault> {
        self.read.push(Text::from_slice(alloc, name.bytes())?)?;
        self.inner.read_file(alloc, name, limit)
    }

    fn write_file(&mut self, alloc: Global, name: &Text, bytes: &Text) -> Result<(), FileFault> {
        self.written.push(Text::from_slice(alloc, name.bytes())?)?;
        self.inner.write_file(alloc, name, bytes)
    }
}
