//! A notice, and the verdict that answers it.

use nfqa_msgs::{Head, Request, decode_notice, encode_request};
use packet_entry::NoMemory;
use std::alloc::Global;

/// Port 7 answers a notice by its message number `call`: packets above 1,400 bytes are dropped (0),
/// all others accepted (1). Nothing is appended if the bytes are no notice.
pub fn verdict_on(
    alloc: Global,
    bytes: &[u8],
    call: u32,
    out: &mut Vec<u8>,
) -> Result<(), NoMemory> {
    let Some(notice) = decode_notice(alloc, bytes)? else {
        return Ok(());
    };
    let verdict = if notice.length > 1400 { 0 } else { 1 };
    let request = Request::Verdict {
        queue: notice.queue,
        head: Some(Head {
            verdict,
            id: notice.id,
        }),
        mark: None,
        payload: None,
        priority: None,
    };
    encode_request(7, call, &request, out)
}
