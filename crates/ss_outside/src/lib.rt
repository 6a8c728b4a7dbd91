//! The outside: where bytes come from, where they go and where they lie, as traits that say what a call does, and devices in memory.
#![tactic(auto)]

mod bytes_at;
mod disk;
mod mem_disk;
mod mem_sink;
mod mem_source;
mod past;
mod sink;
mod source;
mod spare;
mod steady_sink;
mod steady_source;

pub use disk::{Disk, LONGEST_DISK};
pub use mem_disk::{Choice, MemDisk};
pub use mem_sink::MemSink;
pub use mem_source::MemSource;
pub use sink::Sink;
pub use source::{Failed, Source};
pub use spare::MOST_SPARE;
pub use steady_sink::SteadySink;
pub use steady_source::SteadySource;
