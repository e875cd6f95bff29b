//! The outside: files that are read by name, and sinks that take bytes.
//!
//! Both are traits with a meaning, and with a count of faults that never falls. An object over memory
//! tells what it holds, and fails where it is told to; one over the system tells only its faults. It
//! knows nothing of programs. The layers above use that a read gives the first bytes of what a name
//! holds, that `write_all` writes all bytes or a front of them, and that a failure is answered only
//! where a count of faults rose.
#![tactic(auto)]

mod failed_names;
mod files;
mod mem_files;
mod mem_sink;
mod real_files;
mod real_sink;
mod sink;

pub use files::{Files, ReadStop};
pub use mem_files::MemFiles;
pub use mem_sink::MemSink;
pub use real_files::RealFiles;
pub use real_sink::RealSink;
pub use sink::{Failed, Sink, write_all};
