//! The host's files. Nothing is told of what they hold.
ghost use Rattle.std.specs.Prelude.{◌≡◌, ◌≢◌, ◌≤◌, List, length, None, Err, IfOk, IfSome, IsSome, IsNone, IsErrOf};
ghost use Rattle.ir_base.specs.Calls.{next_count};
ghost use Rattle.ir_base.specs.HostFiles.{IsPath};
ghost use Rattle.ir_base.specs.Outside.{Rose};

use crate::name::has_no_zero;
use crate::{FileFault, Files, Text};
use std::alloc::Global;
use std::fs::File;
use std::io::{ErrorKind, Read, Write};
use std::marker::Model;
use std::{io, rt};

/// The files of the host, by paths. A name that is no path of the host's, since it is not UTF-8 or holds a zero byte,
/// is a fault of its call. Contracts see how many reads and how many writes have failed, in counts that stand at their
/// type's end.
#[derive(Drop)]
pub struct HostFiles<'a, R: rt::Files> {
    rt: &'a R,
    read_failures: u64,
    write_failures: u64,
}

impl<'a, R: rt::Files> Model for HostFiles<'a, R> {
    ghost use Rattle.ir_base.specs.HostFiles.{HostState};

    ghost Value = { HostState };

    ghost view = { λ host. record { read_faults = host.read_failures; write_faults = host.write_failures } };
}

// The name as a path, where it is one.
fn path_of(name: &Text) -> Option<&str>
    ensures name { IfSome result (λ path. path.now ≡ name.now) }
    ensures some { IsSome result → IsPath name.now }
    ensures none { IsNone result → ¬ IsPath name.now }
{
    match str::from_utf8(name.bytes()) {
        Ok(path) if has_no_zero(path.as_bytes()) => Some(path),
        _ => None,
    }
}

// The bytes of the file, or one more than the limit where there are more.
fn read_some<R: rt::Files>(rt: &R, alloc: Global, path: &str, limit: u64) -> io::Result<Vec<u8>> {
    let mut bytes = Vec::new(alloc);
    File::open(rt, path)?
        .take(limit.saturating_add(1))
        .read_to_end(&mut bytes)?;
    Ok(bytes)
}

// Whether the error tells that memory ran out.
fn tells_of_memory(error: &io::Error) -> bool {
    error.kind() == ErrorKind::OutOfMemory
}

fn read_path<R: rt::Files>(
    rt: &R,
    alloc: Global,
    name: &Text,
    limit: u64,
) -> Result<Text, FileFault>
    ensures few { IfOk result (λ text. length text ≤ limit) }
    ensures no_path { ¬ IsPath name.now → IsErrOf result FileFault.Failed }
{
    let Some(path) = path_of(name) else {
        return Err(FileFault::Failed);
    };
    match read_some(rt, alloc, path, limit) {
        Ok(bytes) if bytes.len() as u64 <= limit => Ok(Text::from_vec(bytes)),
        Ok(_) => Err(FileFault::TooLarge),
        Err(error) if tells_of_memory(&error) => Err(FileFault::Memory),
        Err(_) => Err(FileFault::Failed),
    }
}

// Once the file is made, no fault is put down to memory: the file may have changed.
fn write_path<R: rt::Files>(rt: &R, name: &Text, bytes: &Text) -> Result<(), FileFault>
    ensures any_size { result ≢ Err FileFault.TooLarge }
    ensures no_path { ¬ IsPath name.now → IsErrOf result FileFault.Failed }
{
    let Some(path) = path_of(name) else {
        return Err(FileFault::Failed);
    };
    match File::create(rt, path) {
        Ok(mut file) => file.write_all(bytes.bytes()).map_err(|_| FileFault::Failed),
        Err(error) if tells_of_memory(&error) => Err(FileFault::Memory),
        Err(_) => Err(FileFault::Failed),
    }
}

impl<'a, R: rt::Files> HostFiles<'a, R> {
    /// The files that the runtime reaches.
    pub fn new(rt: &'a R) -> Self
        ensures { result ≡ record { read_faults = 0; write_faults = 0 } }
    {
        HostFiles {
            rt,
            read_failures: 0,
            write_failures: 0,
        }
    }
}

impl<R: rt::Files> Files for HostFiles<'_, R> {
    ghost contents = { λ _. None };

    ghost read_faults = { λ host. host.read_faults };

    ghost write_faults = { λ host. host.write_faults };

    fn read_file(&mut self, alloc: Global, name: &Text, limit: u64) -> Result<Text, FileFault>
        ensures few { IfOk result (λ text. length text ≤ limit) }
        ensures later { self.old.read_faults ≤ self.new.read_faults }
        ensures fine { result ≢ Err FileFault.Failed → self.new.read_faults ≡ self.old.read_faults }
        ensures writes { self.new.write_faults ≡ self.old.write_faults }
        ensures counted { IsErrOf result FileFault.Failed →
            self.new.read_faults ≡ next_count self.old.read_faults }
        ensures no_path { ¬ IsPath name.now → IsErrOf result FileFault.Failed }
    {
        let outcome = read_path(self.rt, alloc, name, limit);
        if let Err(FileFault::Failed) = outcome {
            self.read_failures = self.read_failures.saturating_add(1);
        }
        outcome
    }

    fn write_file(&mut self, _alloc: Global, name: &Text, bytes: &Text) -> Result<(), FileFault>
        ensures any_size { result ≢ Err FileFault.TooLarge }
        ensures later { self.old.write_faults ≤ self.new.write_faults }
        ensures fine { result ≢ Err FileFault.Failed → self.new.write_faults ≡ self.old.write_faults }
        ensures reads { self.new.read_faults ≡ self.old.read_faults }
        ensures counted { IsErrOf result FileFault.Failed →
            self.new.write_faults ≡ next_count self.old.write_faults }
        ensures no_path { ¬ IsPath name.now → IsErrOf result FileFault.Failed }
    {
        let outcome = write_path(self.rt, name, bytes);
        if let Err(FileFault::Failed) = outcome {
            self.write_failures = self.write_failures.saturating_add(1);
        }
        outcome
    }
}
