//! A generated capture.

ghost use Rattle.std.specs.Prelude.{◌≡◌, ◌<◌, ◌≤◌, length, IfOk, All};
ghost use Rattle.pcap_io.specs.Text.{IsHeld};
ghost use Rattle.generated.specs.Numbers.{longest_generated, most_records};
ghost use Rattle.generated.specs.Captures.{captured, generated_capture, packets_from, records};

use crate::packet::{put_packet, total_length};
use packet_entry::{Bytes, NoMemory, Sequence};
use pcap_io::{Capture, Frame, Frames};
use rand_core::{Rng, SeedableRng};
use rand_xoshiro::Xoshiro256PlusPlus;
use std::alloc::Global;

/// The header's snap length, in bytes: libpcap's own limit on a frame (MAXIMUM_SNAPLEN in
/// pcap-int.h).
const SNAP_LENGTH: u32 = 262_144;

/// LINKTYPE_RAW of the registry of link types: packets of IPv4 or IPv6 without a header before
/// them.
const LINK_RAW: u32 = 101;

/// How many bytes are reserved for a packet. They have 51.5 on the average.
const USUAL_LENGTH: usize = 52;

/// The capture of a number, with this many records: record i, from 1 on, is the packet of the
/// generator's i-th word, captured whole at second i. All packets share one buffer.
pub fn capture(alloc: Global, number: u64, count: u32) -> Result<Capture, NoMemory>
    requires some { 1 ≤ count }
    requires few { count ≤ most_records }
    ensures value { IfOk result (λ capture. capture ≡ generated_capture number count) }
    ensures count { IfOk result (λ capture. length capture.frames ≡ count) }
    ensures short { IfOk result (λ capture.
        All (λ frame. length frame.bytes ≤ longest_generated) capture.frames) }
    ensures held { IfOk result IsHeld }
{
    Ok(Capture {
        big: false,
        nanos: false,
        zone: 0,
        sigfigs: 0,
        snap: SNAP_LENGTH,
        link: LINK_RAW,
        frames: records(alloc, number, count)?,
    })
}

/// The records, each of the generator's next word: cuts of one buffer, in which their packets stand
/// one behind the other.
fn records(alloc: Global, number: u64, count: u32) -> Result<Frames, NoMemory>
    ensures { IfOk result (λ frames. frames ≡ records number count) }
{
    let bytes = Bytes::from_vec(packets(alloc, number, count)?)?;
    cut_out(alloc, number, count, &bytes)
}

/// The records, cut out of their packets, which stand one behind the other.
fn cut_out(alloc: Global, number: u64, count: u32, bytes: &Bytes) -> Result<Frames, NoMemory>
    requires { bytes.now ≡ packets_from number 1 count }
    ensures { IfOk result (λ frames. frames ≡ records number count) }
{
    // Fewer than 2^64, so that each place in the buffer fits its number.
    let _length = bytes.len();
    let mut generator = Xoshiro256PlusPlus::seed_from_u64(number);
    let mut frames = Vec::with_capacity(alloc, count as usize)?;
    let mut at = 0usize;
    for before in 0..count {
        let length = usize::from(total_length(generator.next_u64()));
        let end = at + length;
        let packet = bytes.cut(at, end)?;
        frames.push_reserved(captured(before + 1, packet));
        at = end;
    }
    Ok(Sequence::from_vec(frames))
}

/// The packets of so many words, one behind the other.
fn packets(alloc: Global, number: u64, count: u32) -> Result<Vec<u8>, NoMemory>
    ensures { IfOk result (λ bytes. bytes.items ≡ packets_from number 1 count) }
{
    let mut generator = Xoshiro256PlusPlus::seed_from_u64(number);
    let mut bytes = Vec::with_capacity(alloc, count as usize * USUAL_LENGTH)?;
    for _ in 0..count {
        put_packet(generator.next_u64(), &mut bytes)?;
    }
    Ok(bytes)
}

/// A packet that was captured whole at this second.
fn captured(second: u32, bytes: Bytes) -> Frame
    requires { length bytes ≤ longest_generated }
    ensures { result ≡ captured second bytes }
{
    Frame {
        seconds: second,
        fraction: 0,
        original: bytes.len() as u32,
        bytes,
    }
}
