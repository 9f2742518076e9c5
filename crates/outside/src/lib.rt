//! The edge to files and streams. A `Folder` has files by name, a `Sink` takes bytes, an `Eater` is fed
//! bytes. Contracts see the state of each: what it holds, where it tells, what reads gave, and what it counts: a
//! fault or a want of memory is answered only where its count rose in that call. `read_through` feeds a whole file to
//! an eater, `FileSink` writes to a folder's file, and `Batch` hands large pieces on to another sink.
//! `MemFolder` and `MemSink` fail where they are told, `NeverFails` never; `RealFolder` and `StdSink` are the system's.
#![tactic(auto)]

mod batch;
mod count;
mod eater;
mod fault;
mod file_sink;
mod folder;
mod given;
mod kept;
mod mem_folder;
mod mem_sink;
mod memory_file;
mod memory_files;
mod memory_list;
mod memory_text;
mod never_fails;
mod reads;
mod real_folder;
mod refusal;
mod script;
mod sink;
mod std_sink;

pub use batch::Batch;
pub use eater::Eater;
pub use file_sink::FileSink;
pub use folder::Folder;
pub use mem_folder::MemFolder;
pub use mem_sink::MemSink;
pub use never_fails::NeverFails;
pub use reads::read_through;
pub use real_folder::RealFolder;
pub use refusal::{ReadStop, Refusal};
pub use sink::Sink;
pub use std_sink::StdSink;
