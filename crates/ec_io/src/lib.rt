//! Files and sinks: what a program reads and writes, and the counts of faults that let a call fail.
#![tactic(auto)]

mod counts;
mod file_sink;
mod known_name;
mod mem_file;
mod mem_sink;
mod mem_store;
mod quiet;
mod read;
mod real;
mod schedule;
mod sink;
mod store;
mod write;

pub use file_sink::FileSink;
pub use mem_file::MemFile;
pub use mem_sink::MemSink;
pub use mem_store::MemStore;
pub use quiet::Quiet;
pub use read::{ReadStop, read_file};
pub use real::{RealSink, RealStore};
pub use sink::Sink;
pub use store::{Failed, Store};
pub use write::{Written, write_all};
