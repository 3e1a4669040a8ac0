//! Why bytes are no capture.

ghost use Rattle.std.specs.Prelude.{◌≡◌};
ghost use Rattle.pcap_io.specs.declared.fault.CaptureFault.TheVariants.{NoMemory as OutOfMemory};

use packet_entry::NoMemory;
use thiserror::Error;

/// The first fault of a file, from its front, with its record where it is in one. Frames count from
/// 1, and 0 is the file's header; `at` is the offset in bytes at which that frame's record begins.
#[derive(Clone, Copy, Debug, PartialEq, Eq, Error)]
pub enum CaptureFault {
    /// There are fewer than four bytes, or the first four are neither one of the format's magic
    /// numbers nor pcapng's.
    #[error("no pcap magic")]
    Magic,
    /// The file is a pcapng file: it begins with the bytes 0a 0d 0d 0a.
    #[error("pcapng")]
    Pcapng,
    /// The header's version isn't 2.4.
    #[error("version")]
    Version,
    /// The header's link type is none of 1, 101, 228 and 229.
    #[error("link type {link}")]
    LinkType { link: u32 },
    /// The file ends within its header, or within the record of this frame.
    #[error("record {frame} at byte {at} is cut")]
    Cut { frame: u32, at: u64 },
    /// By its header this record has more than 262,144 captured bytes.
    #[error("record {frame} has {length} bytes")]
    TooLong { frame: u32, length: u32 },
    /// Out of memory. The bytes may be a capture or not.
    #[error("out of memory")]
    NoMemory,
}

impl From<NoMemory> for CaptureFault {
    ghost from_gives = { λ _ fault. fault ≡ OutOfMemory };

    fn from(_: NoMemory) -> CaptureFault {
        CaptureFault::NoMemory
    }
}
