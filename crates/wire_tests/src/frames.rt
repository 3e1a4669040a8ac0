//! `ip_fields` and `pcap_io`: where packets start, what they say of themselves, and captures.

use ip_fields::{fields, link_cut};
use packet_entry::Bytes;
use pcap_io::{Capture, CaptureFault, read_capture, read_shared_capture, write_capture};
use std::alloc::{AllocError, Global};
use std::fmt::Write;
use std::test::Fail;
use test_inputs::{Row, add, debug, hex};

/// The most bytes of a capture in the table.
const LONGEST: usize = 1_000_000;

/// What a call of these crates answers, printed.
pub fn answer(alloc: Global, row: &Row<'_>) -> Result<Option<String>, Fail> {
    let shown = match row.call {
        "fields" => debug(alloc, fields(&row.bytes(alloc, 0)?))?,
        "link_cut" => debug(alloc, link_cut(row.number(0), &row.bytes(alloc, 1)?))?,
        "capture" => capture(alloc, &row.bytes(alloc, 0)?)?,
        "fronts" => fronts(alloc, &row.bytes(alloc, 0)?)?,
        _ => return Ok(None),
    };
    Ok(Some(shown))
}

/// What a file is read as, and whether it is read so where it is shared and written back so.
fn capture(alloc: Global, file: &[u8]) -> Result<String, Fail> {
    if file.len() > LONGEST {
        return Ok(debug(alloc, "long")?);
    }
    let capture = match read_capture(alloc, file) {
        Ok(capture) => capture,
        Err(fault) => return Ok(format!(in alloc; "{fault:?} {fault}")?),
    };
    let mut text = held(alloc, &capture)?;
    let shared = read_shared_capture(alloc, &Bytes::copy(alloc, file)?)?;
    if held(alloc, &shared)? == text {
        add(&mut text, "shared")?;
    }
    let mut out = [7].to_vec(alloc)?;
    write_capture(&capture, &mut out)?;
    if out.strip_prefix(&[7]) == Some(file) {
        add(&mut text, "written")?;
    }
    Ok(text)
}

/// A capture's header, and of each frame its times, its length and its bytes.
fn held(alloc: Global, capture: &Capture) -> Result<String, AllocError> {
    let mut text = String::new(alloc);
    let (big, nanos) = (capture.big, capture.nanos);
    let (zone, sigfigs) = (capture.zone, capture.sigfigs);
    let (snap, link) = (capture.snap, capture.link);
    write!(
        text,
        "big {big} nanos {nanos} zone {zone} sigfigs {sigfigs} snap {snap} link {link}"
    )?;
    for frame in &capture.frames {
        let (seconds, fraction, original) = (frame.seconds, frame.fraction, frame.original);
        let bytes = hex(alloc, frame.bytes.as_slice())?;
        write!(text, "; {seconds} {fraction} {original}: {bytes}")?;
    }
    Ok(text)
}

/// From which length on the first bytes of a file are answered so: with the number of frames, or a
/// fault.
fn fronts(alloc: Global, file: &[u8]) -> Result<String, Fail> {
    let mut text = String::new(alloc);
    let mut last = Err(CaptureFault::NoMemory);
    for length in 0..=file.len().min(LONGEST) {
        let read = read_capture(alloc, file.get(..length).unwrap_or(&[]));
        let now = match &read {
            Ok(capture) => Ok(capture.frames.len()),
            Err(fault) => Err(*fault),
        };
        if now != last {
            let answer = format!(in alloc; "{length} {now:?}")?;
            add(&mut text, answer.as_str())?;
            last = now;
        }
    }
    Ok(text)
}
