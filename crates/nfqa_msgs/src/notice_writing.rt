//! Notices, written as messages.

ghost use Rattle.std.specs.Prelude.{◌≡◌, ◌≤◌, ◌<◌, ◌++◌, ◌||◌, ◌==◌, ◌+◌, OnOk, OnErr, IsTrue};
ghost use Rattle.arrayvec.specs.ArrayVec.{array_vec_len};
ghost use Rattle.netlink_codec.specs.Attributes.{attributes_text};
ghost use Rattle.nfqa_msgs.specs.Numbers.{copy_meta, copy_packet, longest_range};
ghost use Rattle.netlink_codec.specs.Numbers.{attribute_header_length, kind_limit};
ghost use Rattle.nfqa_headers.specs.Numbers.{parts_room};
ghost use Rattle.nfqa_headers.specs.Headers.{value_length};
ghost use Rattle.nfqa_headers.specs.AttributeWriting.{part, part_length};
ghost use Rattle.nfqa_msgs.specs.NoticeWriting.{FitsTold, notice, notice_text, notice_body};
ghost use Rattle.nfqa_msgs.specs.NoticeWriting.{notice_front, told_of, family_of};
ghost use Rattle.nfqa_msgs.specs.NoticeWriting.{nonzero_content, padded_payload};
ghost use Rattle.nfqa_msgs.specs.Telling.{telling};

use crate::notice::Telling;
use crate::notice_content::telling_of;
use netlink_codec::{attr_header, put_split_message};
use nfqa_headers::attribute_writing::{Parts, put_bytes, put_value, zeros_behind};
use nfqa_headers::kinds::{
    FULL_LENGTH, INPUT_DEVICE, MARK, NOTICE, NUMBERS, OUTPUT_DEVICE, PAYLOAD, PRIORITY,
    QUEUE_SUBSYSTEM,
};
use nfqa_headers::packet_address::put_address;
use nfqa_headers::packet_header::put_packet_header;
use nfqa_headers::queue_header::{IPV4_FAMILY, IPV6_FAMILY, begin_body};
use nfqa_headers::timestamp::put_stamp;
use packet_entry::{IPV4, NoMemory, Packet};
use std::alloc::AllocError;

/// The index of the device by which every packet comes in.
pub(crate) const INPUT: u32 = 1;
/// The index of the device by which every packet goes out.
pub(crate) const OUTPUT: u32 = 2;

/// Appends the notice of a packet that waits in `queue` under `id`: of all packets the id, the
/// Ethernet type, the devices, the mark and the priority unless they are 0, the source address of
/// an Ethernet header and the time of capture; under the mode `PACKET` its first `range` bytes, and
/// its length where that is more.
///
/// `NoMemory` leaves `out` as it was.
pub fn encode_notice(
    queue: u16,
    id: u32,
    mode: u8,
    range: u32,
    packet: &Packet,
    out: &mut Vec<u8>,
) -> Result<(), NoMemory>
    requires mode { IsTrue ((mode == copy_meta) || (mode == copy_packet)) }
    requires range { range ≤ longest_range }
    ensures ok { OnOk result (out.new.items ≡ out.old.items
        ++ notice queue mode range id packet.now) }
    ensures err { OnErr result (out.new.items ≡ out.old.items) }
    // What is told is what a notice can tell, so that it is read back.
    ensures fits { FitsTold (told_of queue mode range id packet.now) }
{
    let told = telling_of(queue, id, mode, range, packet);
    put_notice(out, &told)?;
    Ok(())
}

/// Appends a notice, or nothing.
pub(crate) fn put_notice(out: &mut Vec<u8>, told: &Telling<'_>) -> Result<(), AllocError>
    requires { FitsTold (telling told.now) }
    ensures ok { OnOk result (out.new.items ≡ out.old.items ++ notice_text (telling told.now)) }
    ensures err { OnErr result (out.new.items ≡ out.old.items) }
{
    let front = front_of(told);
    put_split_message(
        out,
        QUEUE_SUBSYSTEM * NUMBERS + NOTICE,
        0,
        0,
        0,
        front.as_slice(),
        told.payload,
        zeros_behind(told.payload),
    )
}

/// What stands between the message's header and the packet's bytes.
pub(crate) fn front_of(told: &Telling<'_>) -> Parts
    requires { FitsTold (telling told.now) }
    ensures { notice_body (telling told.now) ≡ result.items ++ padded_payload told.now.payload.now }
{
    let mut front = parts_before(told);
    if told.payload.is_empty() {
        return front;
    }
    put_bytes(&mut front, &attr_header(PAYLOAD, told.payload.len()));
    front
}

/// What stands before the attribute of the packet's bytes.
fn parts_before(told: &Telling<'_>) -> Parts
    requires { FitsTold (telling told.now) }
    ensures text { result.items ≡ notice_front (telling told.now) }
    ensures length { array_vec_len result + attribute_header_length ≤ parts_room }
{
    let mut parts = begin_body(family(told.protocol), told.queue);
    put_packet_header(&mut parts, told.id, told.protocol);
    put_value(&mut parts, INPUT_DEVICE, Some(INPUT));
    put_value(&mut parts, OUTPUT_DEVICE, Some(OUTPUT));
    put_nonzero(&mut parts, MARK, told.mark);
    put_nonzero(&mut parts, PRIORITY, told.priority);
    put_address(&mut parts, told.source);
    put_stamp(&mut parts, told.seconds, told.micros);
    put_value(&mut parts, FULL_LENGTH, told.cut_from);
    parts
}

pub(crate) fn family(protocol: u16) -> u8
    ensures { result ≡ family_of protocol }
{
    if protocol == IPV4 {
        IPV4_FAMILY
    } else {
        IPV6_FAMILY
    }
}

/// Appends an attribute that is one number, unless it is 0. There is room for it.
fn put_nonzero(parts: &mut Parts, kind: u16, value: u32)
    requires kind { kind < kind_limit }
    requires room { array_vec_len parts.old + part_length value_length ≤ parts_room }
    ensures text { parts.new.items ≡ parts.old.items
        ++ attributes_text (part kind (nonzero_content value)) }
    ensures length { array_vec_len parts.new ≤ array_vec_len parts.old + part_length value_length }
{
    if value != 0 {
        put_value(parts, kind, Some(value));
    }
}
