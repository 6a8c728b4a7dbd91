//! The file of a store as a disk, and standard input and output as a source and a sink: how the file is opened, locked, judged, read,
//! written and synced.
#![tactic(auto)]

#[cfg(test)]
mod adapter_tests;
mod adapters;
mod demand;
mod file_disk;
mod foreign;
mod host_system;
mod judge;
#[cfg(test)]
mod made_up_system;
mod opening;
mod reading;
mod reason;
mod system;
mod writing;

pub use adapters::{StdSink, StdSource};
pub use demand::{Demand, meet};
pub use file_disk::FileDisk;
pub use host_system::HostSystem;
pub use opening::{Missing, Opened};
pub use reason::{Reason, Trouble};
pub use system::{Access, Kind, Lock, Stream, System};
