//! Released frames, as they were read or behind their link header. Ledgers are in `ledger_rows`.

ghost use Rattle.std.specs.Prelude.{◌≡◌, ◌≤◌, All, IfOk, length};
ghost use Rattle.packet_entry.specs.Numbers.{longest_packet};

use fate_ledger::{Fate, FateLine, FateLines, released_capture};
use packet_entry::{Bytes, NoMemory};
use pcap_io::{Capture, Frame, Frames};
use std::alloc::Global;
use std::test::Fail;

/// An Ethernet capture of this frame, whose original length is 99.
fn one_frame(alloc: Global, frame: &[u8]) -> Result<Capture, NoMemory>
    ensures { IfOk result (λ capture. length capture.frames ≡ 1) }
{
    let mut frames = Frames::new(alloc);
    let bytes = Bytes::copy(alloc, frame)?;
    frames
        .push(Frame {
            seconds: 1,
            fraction: 2,
            original: 99,
            bytes,
        })
        .map_err(|_| NoMemory)?;
    Ok(Capture {
        big: false,
        nanos: false,
        zone: 0,
        sigfigs: 0,
        snap: 65_535,
        link: 1,
        frames,
    })
}

/// The line of a packet with this fate and this last payload.
fn one_line(alloc: Global, fate: Fate, payload: &[u8]) -> Result<FateLines, NoMemory>
    requires { length payload.now ≤ longest_packet }
    ensures one { IfOk result (λ lines. length lines ≡ 1) }
    ensures short { IfOk result (λ lines. All (λ l. length l.payload ≤ longest_packet) lines) }
{
    let mut lines = FateLines::new(alloc);
    let payload = Bytes::copy(alloc, payload)?;
    lines
        .push(FateLine {
            number: 1,
            fate,
            queue: 0,
            at: 1,
            mark: 0,
            priority: 0,
            payload,
        })
        .map_err(|_| NoMemory)?;
    Ok(lines)
}

/// A frame, its fate and last payload, and what is written: the original length and the bytes.
type Row = (
    &'static [u8],
    Fate,
    &'static [u8],
    Option<(u32, &'static [u8])>,
);

#[test]
fn frames_are_written_as_they_were_let_go(rt: HostRuntime) -> Result<(), Fail> {
    // IPv4 behind a header with a VLAN tag, and ARP.
    const TAGGED: &[u8] =
        b"\x01\x02\x03\x04\x05\x06\x07\x08\x09\x0a\x0b\x0c\x81\0\0\x05\x08\0E\x07";
    const OTHER: &[u8] =
        b"\x01\x02\x03\x04\x05\x06\x07\x08\x09\x0a\x0b\x0c\x81\0\0\x05\x08\0E\x08\x09";
    const ARP: &[u8] = b"\x01\x02\x03\x04\x05\x06\x07\x08\x09\x0a\x0b\x0c\x08\x06\0\x01";
    const ROWS: [Row; 5] = [
        (TAGGED, Fate::Accept, b"E\x07", Some((99, TAGGED))),
        (TAGGED, Fate::Accept, b"E\x08\x09", Some((21, OTHER))),
        (TAGGED, Fate::Unhooked, TAGGED, Some((99, TAGGED))),
        (TAGGED, Fate::Dropped, b"E\x07", None),
        (ARP, Fate::Unhooked, ARP, Some((99, ARP))),
    ];
    let alloc = rt.alloc();
    for &(frame, fate, payload, wanted) in &ROWS {
        assert!(rt; payload.len() <= 100);
        let lines = one_line(alloc, fate, payload)?;
        let kept = released_capture(alloc, &one_frame(alloc, frame)?, &lines)?;
        let first = kept.frames.get(0);
        let told = first.map(|frame| (frame.original, frame.bytes.as_slice()));
        assert_eq!(rt;
            (kept.frames.len(), told),
            (usize::from(wanted.is_some()), wanted)
        );
    }
    Ok(())
}
