//! The bytes that a port sends.

ghost use Rattle.std.specs.Prelude.{◌≡◌, ◌<◌, ◌≤◌, ◌^◌, drop, length, OnOk};
ghost use Rattle.nfqa_msgs.specs.RequestWriting.{spelling};
ghost use Rattle.script_lines.specs.Limits.{IsRequest, IsWords};
ghost use Rattle.run_parts.specs.Datagrams.{bytes_of};

use histories::AskWords;
use nfqa_msgs::{Request, encode_request};
use packet_entry::NoMemory;
use run_parts::datagrams_are_short;

/// A request's text, in place of what the buffer held.
pub fn put_text(text: &mut Vec<u8>, port: u32, call: u32, request: &Request) -> Result<(), NoMemory>
    requires { IsRequest request.now }
    ensures text { OnOk result (text.new.items ≡ spelling port call request.now) }
    ensures short { OnOk result (length text.new.items < 2 ^ 31) }
{
    datagrams_are_short();
    text.clear();
    encode_request(port, call, request, text)
}

/// The bytes of an ask, sent as the port's message with this number, in place of what the buffer
/// held.
pub fn put_words(text: &mut Vec<u8>, port: u32, call: u32, words: AskWords) -> Result<(), NoMemory>
    requires { IsWords words }
    ensures text { OnOk result (text.new.items ≡ bytes_of port call words) }
    ensures short { OnOk result (length text.new.items < 2 ^ 31) }
{
    match words {
        AskWords::Plain { request } => put_text(text, port, call, &request),
        AskWords::Raw { bytes } => {
            text.clear();
            text.extend_from_slice(bytes.as_slice())?;
            Ok(())
        }
    }
}

/// The bytes behind this many.
pub fn behind(bytes: &[u8], used: usize) -> &[u8]
    requires { used ≤ length bytes.now }
    ensures value { result.now ≡ drop used bytes.now }
    ensures length { length result.now ≤ length bytes.now }
{
    &bytes[used..]
}
