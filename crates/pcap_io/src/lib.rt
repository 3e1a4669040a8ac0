//! Captures: files of frames as they stood on a link, in libpcap's classic format of version 2.4
//! (pcap-savefile(5)), in either byte order, with microseconds or nanoseconds.
//!
//! `read_capture` takes the whole file as bytes and gives the capture that it is, or the first
//! fault from the front, with its record where it is in one; `read_shared_capture` does so without
//! copying a frame. `write_capture` appends the file of a capture; `put_header` and `put_record`
//! append the parts of it, so that it needn't be in memory as a whole. The two directions are
//! inverse to each other, byte for byte.
#![tactic(auto)]

mod capture;
mod fault;
mod fields;
mod file_header;
mod laws;
mod reading;
mod record;
mod writing;

pub use capture::{Capture, Frame, Frames};
pub use fault::CaptureFault;
pub use file_header::put_header;
pub use laws::{one_fault, one_value, read_back, same_bytes, value_or_fault};
pub use reading::{read_capture, read_shared_capture};
pub use record::put_record;
pub use writing::{file_size, write_capture};
