//! The world outside the program: files that are read by name, and a sink that takes the text of the
//! answer. Either may be real or stand in memory.
#![tactic(auto)]

mod failed_names;
mod files;
mod mem_files;
mod mem_sink;
mod real_files;
mod real_sink;
mod sink;

pub use files::{Files, ReadEnd};
pub use mem_files::MemFiles;
pub use mem_sink::{MemSink, PlannedFailure};
pub use real_files::RealFiles;
pub use real_sink::RealSink;
pub use sink::{PutEnd, Sink};
