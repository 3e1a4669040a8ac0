//! A capture, read and written.

ghost use Rattle.std.specs.Prelude.{◌<◌, ◌-◌, ◌^◌, length};

use pcap_io::{CaptureFault, read_capture, write_capture};
use std::alloc::Global;

/// Appends a capture with its numbers in little-endian order, and says how many frames it has.
pub fn little_endian(alloc: Global, file: &[u8], out: &mut Vec<u8>) -> Result<usize, CaptureFault>
    requires { length file.now < 2 ^ 32 - 1 }
{
    let mut capture = read_capture(alloc, file)?;
    capture.big = false;
    write_capture(&capture, out)?;
    Ok(capture.frames.len())
}
