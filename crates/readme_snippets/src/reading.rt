//! Reading a capture.

ghost use Rattle.std.specs.Prelude.{◌<◌, ◌-◌, ◌^◌, length};

use pcap_io::{CaptureFault, read_capture};
use std::alloc::Global;

/// How many bytes the frames of a capture file have together, modulo 2^64; or its first fault.
pub fn bytes_in_frames(alloc: Global, file: &[u8]) -> Result<u64, CaptureFault>
    requires { length file.now < 2 ^ 32 - 1 }
{
    let capture = read_capture(alloc, file)?;
    let mut bytes: u64 = 0;
    for frame in &capture.frames {
        bytes = bytes.wrapping_add(frame.bytes.len() as u64);
    }
    Ok(bytes)
}
