//! Files behind one trait, with their faults counted: what a read or a write may do to a file, a
//! machine in memory that fails where it is told to, the thin edge to real files, and whole files
//! over any host.
#![tactic(auto)]

mod entries;
mod entry;
mod file_host;
mod host;
mod memory_host;
mod whole;

pub use file_host::FileHost;
pub use host::{Failed, Host};
pub use memory_host::MemoryHost;
pub use whole::{ReadStop, WriteFault, read_whole, write_on, write_whole};
