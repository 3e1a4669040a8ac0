//! `nfqa_msgs`: requests and notices.

ghost use Rattle.std.specs.Prelude.{IfOk};
ghost use Rattle.nfqa_msgs.specs.RequestReading.{AskedFits};

use netlink_codec::next_message;
use nfqa_msgs::*;
use packet_entry::{Bytes, IPV4, IPV6, MAX_FRAME, NoMemory, Packet};
use std::alloc::Global;
use std::fmt::Write;
use std::test::Fail;
use test_inputs::{Row, debug, hex};

/// The port that requests are written for.
const PORT: u32 = 7;

/// What a call of this crate answers, printed.
pub fn answer(alloc: Global, row: &Row<'_>) -> Result<Option<String>, Fail> {
    let shown = match row.call {
        "request" => request(alloc, &row.bytes(alloc, 0)?)?,
        "notice" => notice(alloc, row)?,
        "read_notice" => read(alloc, &row.bytes(alloc, 0)?)?,
        _ => return Ok(None),
    };
    Ok(Some(shown))
}

/// What a message is decoded to; and of a request whether its bytes are the one spelling.
fn request(alloc: Global, text: &[u8]) -> Result<String, Fail> {
    let Some((message, _)) = next_message(text) else {
        return Ok(debug(alloc, None::<u8>)?);
    };
    let Decoded::Asked { request } = decode_request(alloc, &message)? else {
        return Ok(debug(alloc, decode_request(alloc, &message)?)?);
    };
    let mut out = Vec::new(alloc);
    encode_request(PORT, message.sequence, &request, &mut out)?;
    let is_same = out.as_slice() == text;
    let is_spelled = is_spelling(PORT, message.sequence, &request, text);
    let shared = debug(alloc, request.share()?)?;
    let mut shown = debug(alloc, request)?;
    if shown != shared {
        shown.push_str(" shared otherwise")?;
    }
    if is_same || is_spelled {
        write!(shown, "; written {is_same} spelling {is_spelled}")?;
    }
    Ok(shown)
}

/// The notice of a packet that waits in queue 0 under id 1, captured one second after 1970 began,
/// and what is read of it. Given are the copy mode and range, the packet's mark and priority, its
/// protocol, its link header and its bytes.
fn notice(alloc: Global, row: &Row<'_>) -> Result<String, Fail> {
    let (mode, range) = ((row.number(0) % 256) as u8, row.number(1));
    let (mark, priority) = (row.number(2), row.number(3));
    let protocol = (row.number(4) % 65_536) as u16;
    let (link, bytes) = (row.bytes(alloc, 5)?, row.bytes(alloc, 6)?);
    if protocol != IPV4 && protocol != IPV6
        || !link.is_empty() && link.len() != 14 && link.len() != 18
        || bytes.len() > MAX_FRAME
    {
        return Ok(debug(alloc, "no packet")?);
    }
    let mut packet = Packet::new(alloc, 1, 1, 0, protocol, &link, &bytes)?;
    packet.edit(Some(mark), None, Some(priority));
    let mut out = Vec::new(alloc);
    let done = if (mode == META || mode == PACKET) && range <= MAX_RANGE {
        encode_notice(0, 1, mode, range, &packet, &mut out)
    } else {
        Err(NoMemory)
    };
    packet.destroy();
    done?;
    let mut shown = hex(alloc, &out)?;
    let told = read(alloc, &out)?;
    write!(shown, "; {told}")?;
    Ok(shown)
}

/// What a text tells as a notice, where it is copied and where it is shared.
fn read(alloc: Global, text: &[u8]) -> Result<String, Fail> {
    let told = told_in(alloc, decode_notice(alloc, text)?)?;
    let shared = decode_shared_notice(&Bytes::copy(alloc, text)?)?;
    if told_in(alloc, shared)? == told {
        return Ok(told);
    }
    Ok(debug(alloc, "read otherwise where it is shared")?)
}

/// Queue, id, protocol, mark, priority, length and payload of a notice.
fn told_in(alloc: Global, notice: Option<Notice>) -> Result<String, Fail> {
    let Some(notice) = notice else {
        return Ok(debug(alloc, None::<u8>)?);
    };
    let (queue, id, protocol) = (notice.queue, notice.id, notice.protocol);
    let (mark, priority, length) = (notice.mark, notice.priority, notice.length);
    let payload = hex(alloc, notice.payload.as_slice())?;
    Ok(format!(in alloc; "{queue} {id} {protocol} {mark} {priority} {length}: {payload}")?)
}
