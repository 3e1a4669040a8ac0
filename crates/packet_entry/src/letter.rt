//! Notices on their way to a port.

use crate::Bytes;

/// A notice on its way to a port: which packet's stay in which queue it tells of, and its text.
#[derive(Debug, Drop)]
pub struct Letter {
    /// The number of the queue that the packet waits in.
    pub queue: u16,
    /// The packet's number.
    pub number: u32,
    /// Which of the packet's visits to a queue this is, counted from 1.
    pub visit: u32,
    /// The message, byte for byte.
    pub bytes: Bytes,
}
