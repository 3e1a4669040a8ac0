//! What a capture file holds.

use packet_entry::{Bytes, Sequence};

/// A frame: when it was captured, how long it was, and the bytes of it that were kept.
#[derive(Debug, Drop)]
pub struct Frame {
    /// Seconds since 1970-01-01 00:00:00 UTC.
    pub seconds: u32,
    /// What goes beyond the seconds, in the capture's unit. No value is refused.
    pub fraction: u32,
    /// The length of the frame on the link, in bytes.
    pub original: u32,
    /// The bytes that were captured, at most `packet_entry::MAX_FRAME`.
    pub bytes: Bytes,
}

/// A list of frames.
pub type Frames = Sequence<Frame>;

/// A capture file: its header and its frames, in the order of the file.
#[derive(Debug, Drop)]
pub struct Capture {
    /// Whether the file's numbers stand in big-endian order.
    pub big: bool,
    /// Whether a frame's fraction counts nanoseconds; otherwise it counts microseconds.
    pub nanos: bool,
    /// The header's time zone, as it stands in the file. Writers put 0.
    pub zone: u32,
    /// The header's accuracy of times, as it stands in the file. Writers put 0.
    pub sigfigs: u32,
    /// The header's snap length: the most bytes that were kept of a frame, in the writer's words.
    pub snap: u32,
    /// The link type: 1 for Ethernet, 101 for raw IP, 228 for IPv4, 229 for IPv6.
    pub link: u32,
    /// The frames, in the order of the file.
    pub frames: Frames,
}
