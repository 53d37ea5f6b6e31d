//! Bytes in and bytes out: the two traits that the outside implements, and their implementations.
//!
//! `Files` gives the bytes of named files and `Sink` takes bytes. Each counts the calls that failed, so that whoever is
//! handed an error can show where it came from, and whoever is handed none can show that none was dropped. `MemFiles`
//! and `MemSink` keep everything in memory and fail at the calls that they are told to; `HostFiles` and `HostSink`
//! stand over the system's files and streams.
//!
//! Used above: `read_file` gives the whole file or says why not, `put_all` writes all bytes or a prefix of them.
//!
//! Read `fault`, `sink`, `files`, then `calls`, `mem_sink`, `mem_files`, and `host`, `host_sink`, `host_files`.
#![tactic(auto)]

mod calls;
mod fault;
mod files;
mod host;
mod host_files;
mod host_sink;
mod mem_files;
mod mem_sink;
mod sink;

pub use fault::OutsideFault;
pub use files::{Files, ReadError, read_file};
pub use host_files::HostFiles;
pub use host_sink::HostSink;
pub use mem_files::MemFiles;
pub use mem_sink::MemSink;
pub use sink::{PutError, Sink, put_all};
