//! Why an input is refused, and the line that says so.

ghost use Rattle.std.specs.Prelude.{◌≡◌, ◌++◌, IfOk, OnOk};
ghost use Rattle.std.specs.String.{string_bytes};
ghost use Rattle.run_files.specs.Printed.{fault_text, limit_text, line_of};
ghost use Rattle.run_files.specs.Statuses.{status_of_refusal};

use crate::status;
use pcap_io::CaptureFault;
use std::alloc::{AllocError, Global};

/// What has a limit.
#[derive(Clone, Copy, Debug, PartialEq, Eq)]
pub enum Limit {
    /// The rules' 1,048,576 bytes.
    Rules,
    /// The script's 1,048,576 bytes.
    Script,
    /// The capture's 67,108,864 bytes.
    Capture,
    /// The capture's 200,000 frames.
    Records,
    /// The 536,870,912 bytes of a journal.
    Journal,
}

/// Why an input is refused.
#[derive(Clone, Copy, Debug, PartialEq, Eq)]
pub enum Refusal {
    /// The first fault of the capture.
    Capture { fault: CaptureFault },
    /// The first line of the rules that may not stand, or that is missing at their end, from 1.
    Rules { number: u32 },
    /// The first line of the script that may not stand, or that is missing at its end, from 1.
    Script { number: u32 },
    /// The first line of the journal that may not stand, or that is missing at its end, from 1.
    Journal { number: u32 },
    /// What is above its limit.
    TooLarge { limit: Limit },
}

impl Refusal {
    /// The exit status.
    pub fn status(self) -> u8
        ensures { result ≡ status_of_refusal self }
    {
        match self {
            Refusal::Capture { fault: _ } => status::BAD_CAPTURE,
            Refusal::Rules { number: _ } => status::BAD_RULES,
            Refusal::Script { number: _ } => status::BAD_SCRIPT,
            Refusal::Journal { number: _ } => status::BAD_JOURNAL,
            Refusal::TooLarge { limit: _ } => status::TOO_LARGE,
        }
    }

    /// The line that is printed.
    pub fn line(self, alloc: Global) -> Result<String, AllocError>
        ensures { IfOk result (λ line. string_bytes line ≡ line_of self) }
    {
        let mut line = String::new(alloc);
        match self {
            Refusal::Capture { fault } => {
                line.push_str("capture refused: ")?;
                push_fault(&mut line, fault)?;
                line.push_str("\n")?;
            }
            Refusal::Rules { number } => writeln!(line, "rules refused: line {number}")?,
            Refusal::Script { number } => writeln!(line, "script refused: line {number}")?,
            Refusal::Journal { number } => writeln!(line, "journal refused: line {number}")?,
            Refusal::TooLarge { limit } => writeln!(line, "too large: {}", limit.name())?,
        }
        Ok(line)
    }
}

impl Limit {
    /// What is above it, in a printed line.
    fn name(self) -> &'static str
        ensures { result.now ≡ limit_text self }
    {
        match self {
            Limit::Rules => "rules",
            Limit::Script => "script",
            Limit::Capture => "capture",
            Limit::Records => "records",
            Limit::Journal => "journal",
        }
    }
}

/// What is wrong with a capture.
fn push_fault(line: &mut String, fault: CaptureFault) -> Result<(), AllocError>
    ensures { OnOk result (string_bytes line.new ≡ string_bytes line.old ++ fault_text fault) }
{
    match fault {
        CaptureFault::Magic => line.push_str("no pcap magic"),
        CaptureFault::Pcapng => line.push_str("pcapng"),
        CaptureFault::Version => line.push_str("version"),
        CaptureFault::LinkType { link } => write!(line, "link type {link}"),
        CaptureFault::Cut { frame, at } => write!(line, "record {frame} at byte {at} is cut"),
        CaptureFault::TooLong { frame, length } => {
            write!(line, "record {frame} has {length} bytes")
        }
        CaptureFault::NoMemory => line.push_str("out of memory"),
    }
}
