//! What a notice tells of a packet: of one that waits, and of one that is known by its card.

ghost use Rattle.std.specs.Prelude.{◌≡◌, ◌≤◌, ◌<◌, ◌^◌, length, option_map, IfSome};
ghost use Rattle.packet_entry.specs.Fields.{IsLinkLength, IsProtocol};
ghost use Rattle.nfqa_headers.specs.Numbers.{hardware_address_length};
ghost use Rattle.nfqa_msgs.specs.Numbers.{longest_range};
ghost use Rattle.nfqa_msgs.specs.NoticeWriting.{FitsTold, told_of, source_in, cut_of, told_bytes};
ghost use Rattle.nfqa_msgs.specs.Telling.{telling};

use crate::PACKET;
use crate::fields::card_fits;
use crate::notice::Telling;
use nfqa_headers::packet_address::ADDRESS_LENGTH;
use packet_entry::{Card, Packet};

/// Where the source address begins in an Ethernet header, after the destination's 6 bytes.
const LINK_SOURCE_AT: usize = 6;

/// What is told of a packet.
pub(crate) fn telling_of(queue: u16, id: u32, mode: u8, range: u32, packet: &Packet) -> Telling<'_>
    requires { range ≤ longest_range }
    ensures value { telling result ≡ told_of queue mode range id packet.now }
    ensures fits { FitsTold (telling result) }
{
    let bytes = packet.bytes();
    Telling {
        queue,
        id,
        protocol: packet.protocol(),
        mark: packet.mark(),
        priority: packet.priority(),
        source: source_address(packet.link()),
        seconds: packet.seconds(),
        micros: packet.micros(),
        cut_from: cut_length(mode, range, bytes),
        payload: first_bytes(mode, range, bytes),
    }
}

/// The same of a packet that is known by its card.
pub(crate) fn telling_of_card(queue: u16, id: u32, mode: u8, range: u32, card: &Card) -> Telling<'_>
    requires protocol { IsProtocol card.now.protocol }
    requires link { IsLinkLength (length card.now.link) }
    requires bytes { length card.now.bytes < 2 ^ 32 }
    requires range { range ≤ longest_range }
    ensures value { telling result ≡ told_of queue mode range id card.now }
    ensures fits { FitsTold (telling result) }
{
    card_fits(card);
    let bytes = card.bytes.as_slice();
    Telling {
        queue,
        id,
        protocol: card.protocol,
        mark: card.mark,
        priority: card.priority,
        source: source_address(card.link.as_slice()),
        seconds: card.seconds,
        micros: card.micros,
        cut_from: cut_length(mode, range, bytes),
        payload: first_bytes(mode, range, bytes),
    }
}

/// The source address in an Ethernet header.
fn source_address(link: &[u8]) -> Option<&[u8]>
    requires { IsLinkLength (length link.now) }
    ensures value { option_map (λ source. source.now) result ≡ source_in link.now }
    ensures length { IfSome result (λ source. length source.now ≡ hardware_address_length) }
{
    if link.is_empty() {
        return None;
    }
    Some(&link[LINK_SOURCE_AT..LINK_SOURCE_AT + ADDRESS_LENGTH])
}

/// The packet's length, where it is told.
fn cut_length(mode: u8, range: u32, bytes: &[u8]) -> Option<u32>
    requires { length bytes.now < 2 ^ 32 }
    ensures { result ≡ cut_of mode range bytes.now }
{
    if mode == PACKET && (range as usize) < bytes.len() {
        Some(bytes.len() as u32)
    } else {
        None
    }
}

/// The bytes that are told.
fn first_bytes(mode: u8, range: u32, bytes: &[u8]) -> &[u8]
    ensures { result.now ≡ told_bytes mode range bytes.now }
{
    if mode == PACKET {
        &bytes[..bytes.len().min(range as usize)]
    } else {
        &[]
    }
}
