//! The capture of what was released.

ghost use Rattle.std.specs.Prelude.{◌≡◌, ◌≤◌, ◌∷◌, ◌++◌, [], length, take, IfOk, OnOk, OnErr, All};
ghost use Rattle.packet_entry.specs.Numbers.{longest_packet};
ghost use Rattle.fate_ledger.specs.Released as text;

use crate::{Fate, FateLine, FateLines};
use ip_fields::link_cut;
use packet_entry::{Bytes, NoMemory};
use pcap_io::{Capture, Frame, Frames};
use std::alloc::Global;

/// The frames that were released, in the order of the capture, under the capture's header: each as
/// it was read, or, where its packet was replaced, with the last payload behind its link header.
/// The bytes of frames that stay as they were read are shared and not copied.
pub fn released_capture(
    alloc: Global,
    capture: &Capture,
    lines: &FateLines,
) -> Result<Capture, NoMemory>
    requires lines { length capture.now.frames ≡ length lines.now }
    requires payloads { All (λ l. length l.payload ≤ longest_packet) lines.now }
    ensures { IfOk result (λ kept. kept ≡ text.released capture.now lines.now) }
{
    Ok(Capture {
        big: capture.big,
        nanos: capture.nanos,
        zone: capture.zone,
        sigfigs: capture.sigfigs,
        snap: capture.snap,
        link: capture.link,
        frames: released_frames(alloc, capture.link, &capture.frames, lines)?,
    })
}

fn released_frames(
    alloc: Global,
    link: u32,
    frames: &Frames,
    lines: &FateLines,
) -> Result<Frames, NoMemory>
    requires lines { length frames.now ≡ length lines.now }
    requires payloads { All (λ l. length l.payload ≤ longest_packet) lines.now }
    ensures { IfOk result (λ kept. kept ≡ text.frames link frames.now lines.now) }
{
    let mut kept = Vec::with_capacity(alloc, count_releases(lines))?;
    let mut rest = frames.iter();
    for line in lines {
        let Some(frame) = rest.next() else {
            unreachable!()
        };
        keep(alloc, link, frame, line, &mut kept)?;
    }
    Ok(Frames::from_vec(kept))
}

/// For so many frames room is made.
fn count_releases(lines: &FateLines) -> usize {
    let mut count: usize = 0;
    for line in lines {
        if line.fate.is_release() {
            count = count.saturating_add(1);
        }
    }
    count
}

/// Keeps the frame of this line, if it was released.
fn keep(
    alloc: Global,
    link: u32,
    frame: &Frame,
    line: &FateLine,
    kept: &mut Vec<Frame>,
) -> Result<(), NoMemory>
    requires { length line.now.payload ≤ longest_packet }
    ensures { OnOk result (kept.new.items
        ≡ kept.old.items ++ text.frames link (frame.now ∷ []) (line.now ∷ [])) }
{
    if !line.fate.is_release() {
        return Ok(());
    }
    kept.push(written(alloc, link, frame, line)?)?;
    Ok(())
}

/// A released frame as it is written: as it was read, unless its packet's last bytes are others.
fn written(alloc: Global, link: u32, frame: &Frame, line: &FateLine) -> Result<Frame, NoMemory>
    requires { length line.now.payload ≤ longest_packet }
    ensures { IfOk result (λ out. out ≡ text.written link frame.now line.now) }
{
    let bytes = frame.bytes.as_slice();
    let Some(cut) = link_cut(link, bytes) else {
        return as_read(frame);
    };
    let payload = line.payload.as_slice();
    if is_unhooked(line.fate) || &bytes[cut.length..] == payload {
        return as_read(frame);
    }
    let header = &bytes[..cut.length];
    Ok(Frame {
        seconds: frame.seconds,
        fraction: frame.fraction,
        original: (header.len() + payload.len()) as u32,
        bytes: behind_header(alloc, header, &line.payload)?,
    })
}

fn is_unhooked(fate: Fate) -> bool
    ensures { result ≡ text.is_unhooked fate }
{
    match fate {
        Fate::Unhooked => true,
        _ => false,
    }
}

fn as_read(frame: &Frame) -> Result<Frame, NoMemory>
    ensures { IfOk result (λ out. out ≡ frame.now) }
{
    Ok(Frame {
        seconds: frame.seconds,
        fraction: frame.fraction,
        original: frame.original,
        bytes: frame.bytes.share()?,
    })
}

/// A payload behind a link header. Without one it isn't copied.
fn behind_header(alloc: Global, header: &[u8], payload: &Bytes) -> Result<Bytes, NoMemory>
    ensures { IfOk result (λ bytes. bytes ≡ header.now ++ payload.now) }
{
    if header.is_empty() {
        return payload.share();
    }
    let mut bytes = Vec::with_capacity(alloc, header.len().saturating_add(payload.len()))?;
    bytes.extend_from_slice(header)?;
    bytes.extend_from_slice(payload.as_slice())?;
    Ok(Bytes::from_vec(bytes)?)
}
