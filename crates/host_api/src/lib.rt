//! What the core asks of the world outside: a source of lines, an output, and two files that a crash may tear.
//!
//! `Source` hands out lines, `Host` has the output and the files. Their contracts say what each call does, what it answers
//! `Failed` for, and which pairs of files a crash may leave at each moment (`specs/Host.antt`, the model of a disk).
//! `MemSource` and `MemHost` keep all in memory, tell all of it, and are proved to be such; `MemHost::crash` makes the
//! host that a crash leaves. `StdSource` and `FileHost` are the few trusted lines over the operating system, which tell
//! nothing. `Contents` reads a file whole; `specs/Disk.antt` has what is torn between two syncs.
#![tactic(auto)]

mod contents;
mod file_host;
mod host;
mod log;
mod memory_host;
mod memory_source;
mod replay;
mod source;
mod stream_source;

pub use file_host::FileHost;
pub use host::{Failed, FileId, Host, NoMemory};
pub use memory_host::{CrashPick, MemHost};
pub use memory_source::MemSource;
pub use source::{Line, Source, SourceFault};
pub use stream_source::StdSource;
