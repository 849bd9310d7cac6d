//! Where bytes come from and where they go: sources, sinks and folders of files, in memory and over the system.
//!
//! A source tells, for contracts alone, the bytes that are left and a count of its faults; a sink tells the bytes that
//! it was given, how many of them it has handed on, and counts of its faults and of its refusals of memory. An object
//! that tells no bytes tells its counts. A folder tells its files, a count of its faults and whether the last read found no
//! file. A `Stop` tells a long work that it is not wanted any more.
#![tactic(auto)]

mod calls;
mod folders;
mod giving;
mod mem_folder;
mod mem_sinks;
mod mem_source;
mod os_folder;
mod sinks;
mod sources;
mod stops;
mod streams;

pub use folders::{Folder, FolderEnd, Found, NamedBytes};
pub use giving::{GiveEnd, give_all};
pub use mem_folder::MemFolder;
pub use mem_sinks::{MemSink, SureSink};
pub use mem_source::MemSource;
pub use os_folder::OsFolder;
pub use sinks::{Sink, SinkEnd};
pub use sources::{Failed, Source};
pub use stops::{NeverStop, Stop};
pub use streams::{StdSink, StdSource};

/// Memory ran out.
pub type NoMemory = std::alloc::AllocError;
