//! The outside as the program sees it, and the bytes, names and places that every crate speaks of.
//!
//! It stands on nothing of this repository. It promises that a call of the outside moves the bytes that it says and
//! fails only where the object's count of faults rose, for every source, sink and set of files, in memory and of the
//! host. Definitions: `specs/Outside`, `specs/Files`, and `specs/Answers` for what any call is to answer; the objects
//! in memory and the adapters have a file of `specs/` each.
//!
//! ```
//! let mut files = MemoryFiles::new(alloc, NumberList::new(alloc));
//! files.put(Text::from_slice(alloc, b"a.ll")?, Text::from_slice(alloc, b"ret")?)?;
//!
//! let mut source = MemorySource::new(Text::from_slice(alloc, b"i32 0")?, NumberList::new(alloc));
//! let text = read_all(alloc, &mut source, 3)?; // `i32`: no more than 3 bytes
//!
//! let mut sink = MemorySink::new(alloc, 100, NumberList::new(alloc))?;
//! write_all(&mut sink, text.bytes())?; // sink.taken() is `i32`
//! ```
#![tactic(auto)]

mod compared;
mod failed;
mod failing_calls;
mod files;
mod host_files;
mod list;
mod memory_files;
mod memory_sink;
mod memory_source;
mod name;
mod place;
mod sink;
mod source;
mod standard;
mod text;

pub use failed::Failed;
pub use files::{FileFault, Files};
pub use host_files::HostFiles;
pub use list::{ItemList, NameList, NumberList, TextList};
pub use memory_files::MemoryFiles;
pub use memory_sink::MemorySink;
pub use memory_source::MemorySource;
pub use name::Name;
pub use place::Place;
pub use sink::{Sink, write_all, write_pieces};
pub use source::{ReadFault, Source, read_all};
pub use standard::{StdSink, StdSource};
pub use text::Text;
