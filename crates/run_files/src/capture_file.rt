//! A capture that is to be written, with all the memory that its writing takes.

ghost use Rattle.std.specs.Prelude.{◌≡◌, IsTrue, IfOk, OnOk, OnErr, Some};
ghost use Rattle.host_io.specs.Host.{ChangesOnly, IsLater, Rises};
ghost use Rattle.pcap_io.specs.Text.{IsHeld, capture_text};
ghost use Rattle.run_files.specs.Parts.{IsCaptureReady};

use crate::part_writing::Part;
use host_io::{Host, WriteFault};
use packet_entry::{MAX_FRAME, NoMemory};
use pcap_io::{Capture, file_size, put_header, put_record};
use std::alloc::Global;
use std::marker::Model;

/// Bytes that hold any record: its header of 16 bytes, and the longest frame.
const RECORD: usize = 16 + MAX_FRAME;

/// A capture that can be written as a file, part by part, without taking memory. Contracts see the
/// bytes of the file.
#[derive(Debug, Drop)]
pub struct CaptureFile {
    capture: Capture,
    /// Where a part is built.
    part: Part,
}

impl Model for CaptureFile {
    ghost use Rattle.std.specs.Prelude.{List, ℕ};
    ghost use Rattle.run_files.specs.Parts.{IsCaptureReady};
    ghost use Rattle.pcap_io.specs.Text.{capture_text};

    ghost Value = { List ℕ };

    ghost view = { λ f. capture_text f.capture };

    ghost invariant = { λ f. IsCaptureReady f.capture f.part.at f.part.bytes };
}

impl CaptureFile {
    /// Takes all memory that the writing wants.
    pub fn new(alloc: Global, capture: Capture) -> Result<CaptureFile, NoMemory>
        requires { IsHeld capture }
        ensures { IfOk result (λ file. file ≡ capture_text capture) }
    {
        // Each place in the file fits its number.
        let Some(_) = file_size(&capture) else {
            return Err(NoMemory);
        };
        Ok(CaptureFile {
            capture,
            part: Part::new(alloc, RECORD)?,
        })
    }

    /// Writes the file, which the host makes anew. Takes no memory.
    pub fn write<H: Host>(self, host: &mut H, name: &str) -> Result<(), WriteFault>
        ensures bytes { OnOk result (IsTrue (H.tells host.old) →
            H.content host.new name.now ≡ Some self) }
        ensures write_fault { OnErr result
            (Rises (H.write_faults host.old name.now) (H.write_faults host.new name.now)) }
        ensures files { ChangesOnly name.now (H.content host.old) (H.content host.new) }
        ensures later { IsLater H.tells H.read_faults H.write_faults host.old host.new }
    {
        let CaptureFile { capture, mut part } = self;
        write_parts(host, name, &capture, &mut part)
    }
}

/// Writes the file of a capture, of which each part is built in `part`.
fn write_parts<H: Host>(
    host: &mut H,
    name: &str,
    capture: &Capture,
    part: &mut Part,
) -> Result<(), WriteFault>
    requires { IsCaptureReady capture.now part.old.at part.old.bytes }
    ensures bytes { OnOk result (IsTrue (H.tells host.old) →
        H.content host.new name.now ≡ Some (capture_text capture.now)) }
    ensures write_fault { OnErr result
        (Rises (H.write_faults host.old name.now) (H.write_faults host.new name.now)) }
    ensures files { ChangesOnly name.now (H.content host.old) (H.content host.new) }
    ensures later { IsLater H.tells H.read_faults H.write_faults host.old host.new }
{
    put_header(capture, &mut part.bytes);
    for frame in &capture.frames {
        part.make_room(host, name, RECORD)?;
        put_record(capture.big, frame, &mut part.bytes);
    }
    part.write(host, name)
}
