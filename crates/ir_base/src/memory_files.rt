//! Files in memory.
ghost use Rattle.std.specs.Prelude.{◌≡◌, ◌≢◌, ◌⊎◌, ◌↔◌, ◌≤◌, ℕ, List, [], length, Option, Some, None, Ok, Err, OnOk, OnErr, IfOk, IfSome, IsErr, IsErrOf, IsTrue, MatchBool};
ghost use Rattle.std.specs.Option.{option_copied};
ghost use Rattle.ir_base.specs.Answers.{Answers};
ghost use Rattle.ir_base.specs.Files.{Holds, HoldsFront, IsMissing, IsOver, ReadsFrom, with_file};
ghost use Rattle.ir_base.specs.MemoryFiles.{ReadFails, after_read, after_write, fails_next, files_named, named_in, within_limit};
ghost use Rattle.ir_base.specs.Outside.{Rose};

use crate::failing_calls::FailingCalls;
use crate::{FileFault, Files, NumberList, Text};
use std::alloc::{AllocError, Global};
use std::collections::HashMap;
use std::marker::Model;

/// Files by name, which fail at the calls that they were told.
///
/// ```
/// let mut files = MemoryFiles::new(alloc, NumberList::new(alloc));
/// files.put(Text::from_slice(alloc, b"a.ll")?, Text::from_slice(alloc, b"ret")?)?;
/// files.get(&name) // Some, of `ret`, where the name is `a.ll`
/// ```
#[derive(Drop)]
pub struct MemoryFiles {
    files: HashMap<Text, Text>,
    calls: FailingCalls,
    read_failures: u64,
    write_failures: u64,
}

impl Model for MemoryFiles {
    ghost use Rattle.ir_base.specs.MemoryFiles.{FilesState};

    ghost Value = { FilesState };

    ghost view = { λ f. record {
      files = f.files.entries;
      fails = f.calls.fails;
      calls = f.calls.made;
      read_faults = f.read_failures;
      write_faults = f.write_failures;
    } };
}

// Puts the bytes under the name, or changes nothing where memory runs out.
fn put_file(files: &mut HashMap<Text, Text>, name: Text, bytes: Text) -> Result<(), AllocError>
    ensures ok { OnOk result (named_in files.new.entries ≡ with_file (named_in files.old.entries) name bytes) }
    ensures err { OnErr result (files.new.entries ≡ files.old.entries) }
{
    files.insert(name, bytes)?;
    Ok(())
}

impl MemoryFiles {
    /// No files. The calls of `read_file` and `write_file` with these numbers fail, counted together from 1.
    pub fn new(alloc: Global, fails: NumberList) -> MemoryFiles
        ensures { result ≡ record { files = []; fails = fails; calls = 0; read_faults = 0; write_faults = 0 } }
    {
        MemoryFiles {
            files: HashMap::new(alloc),
            calls: FailingCalls::new(fails),
            read_failures: 0,
            write_failures: 0,
        }
    }

    /// Sets one file, which is no counted call. Where memory runs out nothing changes.
    pub fn put(&mut self, name: Text, bytes: Text) -> Result<(), AllocError>
        ensures ok { OnOk result (files_named self.new ≡ with_file (files_named self.old) name bytes) }
        ensures err { OnErr result (self.new.files ≡ self.old.files) }
        ensures rest { self.new ≡ record self.old { files = self.new.files } }
    {
        put_file(&mut self.files, name, bytes)
    }

    /// The bytes of the file of this name, where there is one. This is no counted call.
    pub fn get(&self, name: &Text) -> Option<&Text>
        ensures { option_copied result ≡ files_named self.now name.now }
    {
        self.files.get(name)
    }
}

impl Files for MemoryFiles {
    ghost contents = { λ files. Some (files_named files) };

    ghost read_faults = { λ files. files.read_faults };

    ghost write_faults = { λ files. files.write_faults };

    fn read_file(&mut self, alloc: Global, name: &Text, limit: u64) -> Result<Text, FileFault>
        ensures answer { MatchBool (fails_next self.old) (IsErrOf result FileFault.Failed)
            (Answers FileFault.Memory result (within_limit limit (files_named self.old name.now))) }
        ensures after { self.new ≡ after_read self.old }
        ensures rose { IsErrOf result FileFault.Failed →
            Rose self.old.read_faults self.new.read_faults ⊎ IsMissing (Some (files_named self.old)) name.now }
        ensures later { self.old.read_faults ≤ self.new.read_faults }
        ensures may_fail { IsErrOf result FileFault.Failed → ReadFails self.old name.now }
        ensures planned { IsTrue (fails_next self.old) → IsErrOf result FileFault.Failed }
        ensures missing { files_named self.old name.now ≡ None →
            IsErrOf result FileFault.Failed ⊎ IsErrOf result FileFault.Memory }
        ensures large { IsErrOf result FileFault.TooLarge →
            IsOver limit (files_named self.old) name.now }
        ensures over { IsOver limit (files_named self.old) name.now → IsErr result }
    {
        if self.calls.next_fails() {
            self.read_failures = self.read_failures.saturating_add(1);
            return Err(FileFault::Failed);
        }
        let Some(bytes) = self.files.get(name) else {
            return Err(FileFault::Failed);
        };
        if bytes.bytes().len() as u64 > limit {
            return Err(FileFault::TooLarge);
        }
        Ok(Text::from_slice(alloc, bytes.bytes())?)
    }

    fn write_file(&mut self, alloc: Global, name: &Text, bytes: &Text) -> Result<(), FileFault>
        ensures answer { MatchBool (fails_next self.old) (IsErrOf result FileFault.Failed)
            (Answers FileFault.Memory result (Ok tt)) }
        ensures after { self.new ≡ after_write self.old self.new.files }
        ensures written { OnOk result (files_named self.new ≡ with_file (files_named self.old) name.now bytes.now) }
        ensures kept { OnErr result (self.new.files ≡ self.old.files) }
        ensures rose { IsErrOf result FileFault.Failed → Rose self.old.write_faults self.new.write_faults }
        ensures later { self.old.write_faults ≤ self.new.write_faults }
        ensures when { IsErrOf result FileFault.Failed ↔ IsTrue (fails_next self.old) }
    {
        if self.calls.next_fails() {
            self.write_failures = self.write_failures.saturating_add(1);
            return Err(FileFault::Failed);
        }
        let name = Text::from_slice(alloc, name.bytes())?;
        let bytes = Text::from_slice(alloc, bytes.bytes())?;
        Ok(put_file(&mut self.files, name, bytes)?)
    }
}
