//! Laws of the format, each the contract of a function that does nothing. With the contracts of
//! `read_capture` and `write_capture`, which speak of the same definitions, they are laws of the
//! two.

ghost use Rattle.std.specs.Prelude.{◌≡◌, ℕ, ◌<◌, List, ◌⊎◌, slice_index};
ghost use Rattle.pcap_io.specs.declared.capture.Capture.{Capture};
ghost use Rattle.pcap_io.specs.declared.fault.CaptureFault.{CaptureFault};
ghost use Rattle.pcap_io.specs.Text.{IsHeld, FieldsFit, IsCapture, capture_text};
ghost use Rattle.pcap_io.specs.Reading.{IsFault};

/// A text is the file of one capture at most.
pub fn one_value()
    ensures { (text : List ℕ) (a b : Capture) → IsCapture text a → IsCapture text b → a ≡ b }
{}

/// A text has one fault at most.
pub fn one_fault()
    ensures { (text : List ℕ) (a b : CaptureFault) → IsFault text a → IsFault text b → a ≡ b }
{}

/// Bytes are the file of a capture or have a fault, and never both. Out of memory is no fault of a
/// text.
pub fn value_or_fault()
    ensures one { (text : List ℕ) → ((at : ℕ) → slice_index text at < 256) →
        ((c : Capture) × IsCapture text c) ⊎ ((fault : CaptureFault) × IsFault text fault) }
    ensures of_the_text { (text : List ℕ) → IsFault text CaptureFault.NoMemory → ⊥ }
    ensures never_both { (text : List ℕ) (c : Capture) (fault : CaptureFault) → IsCapture text c →
        IsFault text fault → ⊥ }
{}

/// The file of what was read from a text is that text, byte for byte.
pub fn same_bytes()
    ensures { (text : List ℕ) (c : Capture) → IsCapture text c → capture_text c ≡ text }
{}

/// The file of a capture that the format can hold is the file of that capture, and of no other.
/// `write_capture` hands out that the numbers of what it wrote fit their fields.
pub fn read_back()
    ensures whole { (c : Capture) → IsHeld c → FieldsFit c → IsCapture (capture_text c) c }
    ensures only { (c other : Capture) → IsCapture (capture_text c) other → IsHeld c → FieldsFit c →
        other ≡ c }
{}
