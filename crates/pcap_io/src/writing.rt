//! From a capture to bytes.

ghost use Rattle.std.specs.Prelude.{◌≡◌, ◌+◌, ◌≤◌, ◌++◌, length, vec_len, vec_capacity, OnOk};
ghost use Rattle.std.specs.Prelude.{OnErr, IsOk, IfSome, IfNone, ◌^◌};
ghost use Rattle.std.specs.List.{All, flat_map};
ghost use Rattle.packet_entry.specs.Numbers.{longest_packet};
ghost use Rattle.pcap_io.specs.Text.{record_text, capture_text, IsHeld, FrameFits, FieldsFit};

use crate::capture::{Capture, Frames};
use crate::file_header::{FILE_HEADER_LENGTH, put_header};
use crate::record::{RECORD_HEADER_LENGTH, put_record};
use packet_entry::NoMemory;

/// Appends the file of a capture, in the capture's own byte order and resolution. The memory is
/// taken first and at once, so out of memory nothing has changed.
pub fn write_capture(capture: &Capture, out: &mut Vec<u8>) -> Result<(), NoMemory>
    requires { IsHeld capture.now }
    ensures ok { OnOk result (out.new.items ≡ out.old.items ++ capture_text capture.now) }
    ensures err { OnErr result (out.new.items ≡ out.old.items) }

    // No memory is taken where the vector has the room already.
    ensures succeeds { vec_len out.old + length (capture_text capture.now) ≤ vec_capacity out.old →
        IsOk result }

    // What was written is what `read_back` speaks of.
    ensures fits { OnOk result (FieldsFit capture.now) }
{
    let Some(size) = file_size(capture) else {
        return Err(NoMemory);
    };
    out.reserve(size)?;
    put_header(capture, out);
    put_frames(capture.big, &capture.frames, out);
    Ok(())
}

/// How many bytes the file of a capture has; `None` where they are too many to be counted.
pub fn file_size(capture: &Capture) -> Option<usize>
    ensures counted { IfSome result (λ size. size ≡ length (capture_text capture.now)) }
    ensures too_many { IfNone result (2 ^ 64 ≤ length (capture_text capture.now)) }
{
    let mut size = FILE_HEADER_LENGTH;
    for frame in &capture.frames {
        size = size
            .checked_add(RECORD_HEADER_LENGTH)?
            .checked_add(frame.bytes.len())?;
    }
    Some(size)
}

/// Appends the records of these frames, for which there is room.
fn put_frames(big: bool, frames: &Frames, out: &mut Vec<u8>)
    requires lengths { All (λ frame. length frame.bytes ≤ longest_packet) frames.now }
    requires room { vec_len out.old + length (flat_map (record_text big) frames.now)
        ≤ vec_capacity out.old }
    ensures items { out.new.items ≡ out.old.items ++ flat_map (record_text big) frames.now }
    ensures fit { All FrameFits frames.now }
{
    for frame in frames {
        put_record(big, frame, out);
    }
}
