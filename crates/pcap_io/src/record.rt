//! The record of a frame (pcap-savefile(5)), in the file's byte order.
//!
//! | Place | Width | Field |
//! |---|---|---|
//! | 0 | 4 | seconds since 1970 |
//! | 4 | 4 | fraction of that second, in the file's resolution |
//! | 8 | 4 | captured length |
//! | 12 | 4 | original length |
//! | 16 | captured length | the captured bytes |

ghost use Rattle.std.specs.Prelude.{◌≡◌, ◌+◌, ◌≤◌, ◌++◌, length, drop, IfOk, slice_range, vec_len};
ghost use Rattle.std.specs.Prelude.{vec_capacity};
ghost use Rattle.packet_entry.specs.Numbers.{longest_packet};
ghost use Rattle.pcap_io.specs.Numbers.{record_header_length};
ghost use Rattle.pcap_io.specs.Text.{record_text, FrameFits};
ghost use Rattle.pcap_io.specs.Reading.{Gives, read_record};

use crate::capture::Frame;
use crate::fault::CaptureFault;
use crate::fields::{put, put_u32, u32_at};
use packet_entry::{Bytes, MAX_FRAME, NoMemory};

/// The bytes of a record's header, which the captured bytes follow.
pub(crate) const RECORD_HEADER_LENGTH: usize = 16;

/// The place of the seconds, in bytes from the record's start.
const SECONDS_AT: usize = 0;

/// The place of the fraction of a second, in bytes from the record's start.
const FRACTION_AT: usize = 4;

/// The place of the captured length, in bytes from the record's start.
const CAPTURED_AT: usize = 8;

/// The place of the original length, in bytes from the record's start.
const ORIGINAL_AT: usize = 12;

/// The record that begins at this place of the file, of the frame of this number; `rest` is the
/// file from there on. The frame's bytes are a cut of the file's.
#[tactic(auto, unfolding(crate::specs::Reading::read_record))]
pub(crate) fn read_record(
    file: &Bytes,
    rest: &[u8],
    big: bool,
    frame_number: u32,
    at: usize,
) -> Result<Frame, CaptureFault>
    requires same { rest.now ≡ drop at file.now }
    requires within { at ≤ length file.now }
    ensures { Gives result (read_record big frame_number at rest.now) }
{
    if rest.len() < RECORD_HEADER_LENGTH {
        return Err(CaptureFault::Cut {
            frame: frame_number,
            at: at as u64,
        });
    }
    let length = u32_at(big, rest, CAPTURED_AT);
    if length as usize > MAX_FRAME {
        return Err(CaptureFault::TooLong {
            frame: frame_number,
            length,
        });
    }
    let end = RECORD_HEADER_LENGTH + length as usize;
    if rest.len() < end {
        return Err(CaptureFault::Cut {
            frame: frame_number,
            at: at as u64,
        });
    }
    Ok(Frame {
        seconds: u32_at(big, rest, SECONDS_AT),
        fraction: u32_at(big, rest, FRACTION_AT),
        original: u32_at(big, rest, ORIGINAL_AT),
        bytes: cut_after(file, rest, at, RECORD_HEADER_LENGTH, end)?,
    })
}

/// The part of the file from `start` to before `end`, both counted from the place `at`.
#[tactic(auto, using(crate::proofs::Cuts::cut_after, crate::proofs::Cuts::rest_of))]
fn cut_after(
    file: &Bytes,
    rest: &[u8],
    at: usize,
    start: usize,
    end: usize,
) -> Result<Bytes, NoMemory>
    requires same { rest.now ≡ drop at file.now }
    requires within { at ≤ length file.now }
    requires order { start ≤ end }
    requires end { end ≤ length rest.now }
    ensures { IfOk result (λ part. part ≡ slice_range rest.now start end) }
{
    // The length is within `usize`, and so are the two sums below, which are within the file.
    let _length = file.len();
    file.cut(at + start, at + end)
}

/// Appends the record of a frame, in big-endian order where `big` says so: a header of 16 bytes and
/// the frame's bytes, for which there is room. Takes no memory.
#[tactic(auto, unfolding(crate::specs::Text::record_text))]
pub fn put_record(big: bool, frame: &Frame, out: &mut Vec<u8>)
    requires short { length frame.now.bytes ≤ longest_packet }
    requires room { vec_len out.old + (record_header_length + length frame.now.bytes)
        ≤ vec_capacity out.old }
    ensures items { out.new.items ≡ out.old.items ++ record_text big frame.now }
    ensures len { vec_len out.new
        ≡ vec_len out.old + (record_header_length + length frame.now.bytes) }
    ensures capacity { vec_capacity out.old ≤ vec_capacity out.new }
    ensures fits { FrameFits frame.now }
{
    put_u32(big, frame.seconds, out);
    put_u32(big, frame.fraction, out);
    put_u32(big, frame.bytes.len() as u32, out);
    put_u32(big, frame.original, out);
    put(frame.bytes.as_slice(), out);
}
