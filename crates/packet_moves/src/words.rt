//! How messages are logged.

ghost use Rattle.std.specs.Prelude.{◌≡◌, IfOk};
ghost use Rattle.std.specs.Str.{bytes_eq};
ghost use Rattle.nfqa_msgs.specs.RequestReading.{AskedFits, PayloadFits};
ghost use Rattle.nfqa_msgs.specs.RequestWriting.{spelling};
ghost use Rattle.packet_moves.specs.Messages.{words_of};

use histories::AskWords;
use nfqa_msgs::{Decoded, Request, is_spelling};
use packet_entry::{Bytes, NoMemory};
use std::alloc::Global;

/// A message as it is logged: in words where it is the one spelling of what it asks, and else as
/// its own bytes. Memory is taken for these bytes alone.
pub fn words_of(
    alloc: Global,
    port: u32,
    call: u32,
    whole: &[u8],
    decoded: &Decoded,
) -> Result<AskWords, NoMemory>
    requires { AskedFits decoded.now }
    ensures { IfOk result (λ words. words ≡ words_of port call whole.now decoded.now) }
{
    if let Decoded::Asked { request } = decoded {
        if is_plain(port, call, whole, request) {
            return Ok(AskWords::Plain {
                request: request.share()?,
            });
        }
    }
    Ok(AskWords::Raw {
        bytes: Bytes::copy(alloc, whole)?,
    })
}

/// Whether these bytes are the one spelling of a request.
fn is_plain(port: u32, call: u32, whole: &[u8], request: &Request) -> bool
    requires { PayloadFits request.now }
    ensures { result ≡ bytes_eq whole.now (spelling port call request.now) }
{
    is_spelling(port, call, request, whole)
}
