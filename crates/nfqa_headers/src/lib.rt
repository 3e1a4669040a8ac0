//! The headers of nfnetlink_queue messages and their attributes, one module a header: its table of
//! fields, and the reader beside the writer. Besides, the kinds of messages and attributes, and how
//! attributes are checked, found and written.
//!
//! The sources are the kernel's uapi headers `linux/netlink.h`, `linux/netfilter/nfnetlink.h` and
//! `linux/netfilter/nfnetlink_queue.h`. Numbers in the headers of a message and of its attributes
//! are little-endian, those of `nfgenmsg` and of the attributes' contents big-endian.
#![tactic(auto)]

pub mod attribute_reading;
pub mod attribute_writing;
pub mod command;
pub mod kinds;
mod laws;
pub mod packet_address;
pub mod packet_header;
pub mod params;
pub mod queue_header;
pub mod timestamp;
pub mod verdict_header;

pub use laws::public_numbers;
pub use params::Params;
pub use verdict_header::Head;
