//! The packets of a capture's frames.

ghost use Rattle.std.specs.Prelude.{◌≡◌, ◌≤◌, length, IfOk};
ghost use Rattle.packet_entry.specs.Numbers.{longest_packet};
ghost use Rattle.run_parts.specs.Entering.{card_of, micros_of};

use ip_fields::link_cut;
use packet_entry::{NoMemory, Packet};
use pcap_io::{Capture, Frame};

/// How many nanoseconds a microsecond has.
const NANOS_IN_A_MICRO: u32 = 1_000;

/// The packet of a frame with this number, which shares the frame's bytes; `None` of a frame that
/// isn't IP.
pub fn packet_of(capture: &Capture, number: u32, frame: &Frame) -> Result<Option<Packet>, NoMemory>
    requires number { 1 ≤ number }
    requires bytes { length frame.now.bytes ≤ longest_packet }
    ensures { IfOk result (λ packet. packet ≡ card_of capture.now number frame.now) }
{
    let Some(cut) = link_cut(capture.link, frame.bytes.as_slice()) else {
        return Ok(None);
    };
    let link = frame.bytes.cut(0, cut.length)?;
    let bytes = frame.bytes.cut(cut.length, frame.bytes.len())?;
    let micros = micros_of(capture.nanos, frame.fraction);
    Ok(Some(Packet::from_shared(number, frame.seconds, micros, cut.protocol, link, bytes)))
}

/// A frame's fraction of a second in microseconds, rounded down.
fn micros_of(nanos: bool, fraction: u32) -> u32
    ensures { result ≡ micros_of nanos fraction }
{
    if nanos {
        fraction / NANOS_IN_A_MICRO
    } else {
        fraction
    }
}
