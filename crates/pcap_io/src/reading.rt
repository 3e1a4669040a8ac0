//! From bytes to a capture.

ghost use Rattle.std.specs.Prelude.{◌≡◌, ◌≢◌, ◌+◌, ◌<◌, ◌≤◌, length, take, Ok, Err, IfOk, OnOk};
ghost use Rattle.std.specs.Prelude.{IfErr, IsOk, ◌-◌, ◌^◌};
ghost use Rattle.pcap_io.specs.declared.capture.Capture.{Capture};
ghost use Rattle.pcap_io.specs.Numbers.{file_header_length};
ghost use Rattle.pcap_io.specs.Text.{IsCapture};
ghost use Rattle.pcap_io.specs.Reading.{Gives, BreaksOff, IsFault, read_header};

use crate::capture::Capture;
use crate::fault::CaptureFault;
use crate::file_header::{FILE_HEADER_LENGTH, read_header};
use crate::record::{RECORD_HEADER_LENGTH, read_record};
use packet_entry::Bytes;
use std::alloc::Global;

/// The capture that a file of these bytes is. `NoMemory` apart, a file that is none is answered
/// with its first fault from the front. The header is read first. Then the bytes are copied once,
/// as a whole, and the frames are cuts of that copy: who has the file as [`Bytes`] calls
/// [`read_shared_capture`].
pub fn read_capture(alloc: Global, bytes: &[u8]) -> Result<Capture, CaptureFault>
    requires { length bytes.now < 2 ^ 32 - 1 }

    // What is read is what the bytes are the file of, and it is read from no other bytes.
    ensures found { IfOk result (λ capture. IsCapture bytes.now capture) }
    ensures only { (capture : Capture) → IsCapture bytes.now capture → Gives result (Ok capture) }

    // A fault that is answered is the file's, and the fault that a file has is answered.
    ensures fault { IfErr result (λ fault. fault ≢ CaptureFault.NoMemory →
        IsFault bytes.now fault) }
    ensures exact { (fault : CaptureFault) → IsFault bytes.now fault → Gives result (Err fault) }

    // No memory is needed to find a fault of the header.
    ensures header { (fault : CaptureFault) → read_header bytes.now ≡ Err fault →
        result ≡ Err fault }
{
    read_header(alloc, bytes)?;
    let file = Bytes::copy(alloc, bytes)?;
    read_shared_capture(alloc, &file)
}

/// The same of a file that is shared: its frames are cuts of its bytes, and nothing is copied.
pub fn read_shared_capture(alloc: Global, file: &Bytes) -> Result<Capture, CaptureFault>
    requires { length file.now < 2 ^ 32 - 1 }
    ensures found { IfOk result (λ capture. IsCapture file.now capture) }
    ensures only { (capture : Capture) → IsCapture file.now capture → Gives result (Ok capture) }
    ensures fault { IfErr result (λ fault. fault ≢ CaptureFault.NoMemory → IsFault file.now fault) }
    ensures exact { (fault : CaptureFault) → IsFault file.now fault → Gives result (Err fault) }

    // No memory is needed to find a fault of the header, or to read a file without frames.
    ensures header { (fault : CaptureFault) → read_header file.now ≡ Err fault →
        result ≡ Err fault }
    ensures no_frames { (capture : Capture) → read_header file.now ≡ Ok capture →
        length file.now ≡ file_header_length → IsOk result }
{
    read_file(alloc, file)
}

fn read_file(alloc: Global, file: &Bytes) -> Result<Capture, CaptureFault>
    requires { length file.now < 2 ^ 32 - 1 }
    ensures found { IfOk result (λ capture. IsCapture file.now capture) }
    ensures fault { IfErr result (λ fault. fault ≢ CaptureFault.NoMemory → IsFault file.now fault) }
    ensures header { (fault : CaptureFault) → read_header file.now ≡ Err fault →
        result ≡ Err fault }
    ensures no_frames { (capture : Capture) → read_header file.now ≡ Ok capture →
        length file.now ≡ file_header_length → IsOk result }
{
    let bytes = file.as_slice();
    let mut capture = read_header(alloc, bytes)?;
    read_frames(&mut capture, file, bytes)?;
    Ok(capture)
}

/// Reads the records after the header, to the end of the file.
fn read_frames(capture: &mut Capture, file: &Bytes, bytes: &[u8]) -> Result<(), CaptureFault>
    requires same { bytes.now ≡ file.now }
    requires small { length bytes.now < 2 ^ 32 - 1 }
    requires header { IsCapture (take file_header_length bytes.now) capture.old }
    requires whole { file_header_length ≤ length bytes.now }
    ensures ok { OnOk result (IsCapture bytes.now capture.new) }
    ensures err { IfErr result (λ fault. fault ≢ CaptureFault.NoMemory →
        BreaksOff bytes.now fault) }
    ensures none { length bytes.now ≡ file_header_length → IsOk result }
{
    let mut at = FILE_HEADER_LENGTH;
    while at < bytes.len() {
        at = read_frame(capture, file, bytes, at)?;
    }
    Ok(())
}

/// Reads the record that begins at a byte as the next frame, and answers at which byte it ends.
fn read_frame(
    capture: &mut Capture,
    file: &Bytes,
    bytes: &[u8],
    at: usize,
) -> Result<usize, CaptureFault>
    requires same { bytes.now ≡ file.now }
    requires small { length bytes.now < 2 ^ 32 - 1 }
    requires more { at < length bytes.now }
    requires front { IsCapture (take at bytes.now) capture.old }
    ensures further { IfOk result (λ end. at < end) }
    ensures within { IfOk result (λ end. end ≤ length bytes.now) }
    ensures ok { IfOk result (λ end. IsCapture (take end bytes.now) capture.new) }
    ensures err { IfErr result (λ fault. fault ≢ CaptureFault.NoMemory →
        BreaksOff bytes.now fault) }
{
    let frame_number = capture.frames.len() as u32 + 1;
    let frame = read_record(file, &bytes[at..], capture.big, frame_number, at)?;
    let end = at + RECORD_HEADER_LENGTH + frame.bytes.len();
    if capture.frames.push(frame).is_err() {
        return Err(CaptureFault::NoMemory);
    }
    Ok(end)
}
