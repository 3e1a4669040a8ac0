//! `packet_entry`: packets, shared bytes and lists.

use packet_entry::*;
use std::alloc::{AllocError, Global};
use std::fmt::Write;
use std::marker::{Send, Sync};
use std::test::Fail;
use test_inputs::{Row, debug, hex, number};

/// What a call of this crate answers, printed.
pub fn answer(alloc: Global, row: &Row<'_>) -> Result<Option<String>, Fail> {
    let shown = match row.call {
        "bytes" => cuts(alloc, row)?,
        "packet" => packet(alloc, row)?,
        "sequence" => sequence(alloc, row.argument(0))?,
        "stock" => stock(alloc, row.argument(0))?,
        _ => return Ok(None),
    };
    Ok(Some(shown))
}

/// Bytes, and then the cut from one place to another out of what there was before.
fn cuts(alloc: Global, row: &Row<'_>) -> Result<String, Fail> {
    let mut bytes = Bytes::from_vec(row.bytes(alloc, 0)?)?;
    let mut shown = debug(alloc, bytes.share()?)?;
    for range in row.arguments.split(',').skip(1) {
        let (from, to) = range.trim().split_once(' ').unwrap_or(("", ""));
        let (from, to) = (number(from) as usize, number(to) as usize);
        if from <= to && to <= bytes.len() {
            bytes = bytes.cut(from, to)?;
            write!(shown, " {} {bytes:?}", bytes.len())?;
        }
    }
    if bytes.is_empty() {
        shown.push_str(" empty")?;
    }
    Ok(shown)
}

/// A packet of this protocol, this link header and these bytes, as it is made; and then as it is
/// once it was queued by table 2 and edited: with this mark, and then with this priority and these
/// bytes. Another packet, which shares its first bytes, stays as it is.
fn packet(alloc: Global, row: &Row<'_>) -> Result<String, Fail> {
    let protocol = (row.number(0) % 65_536) as u16;
    let (link, bytes) = (row.bytes(alloc, 1)?, row.bytes(alloc, 2)?);
    let payload = Bytes::from_vec(row.bytes(alloc, 5)?)?;
    if protocol != IPV4 && protocol != IPV6
        || !link.is_empty() && link.len() != ETHERNET_HEADER && link.len() != VLAN_HEADER
        || bytes.len() > MAX_FRAME
        || payload.len() > MAX_PAYLOAD
    {
        return Ok(debug(alloc, "no packet")?);
    }
    let mut packet = Packet::new(alloc, 7, 2, 3, protocol, &link, &bytes)?;
    let made = packet.card(alloc);
    let bytes = packet.share_bytes().unwrap_or(Bytes::new(alloc));
    packet.queued(2);
    packet.edit(Some(row.number(3)), None, None);
    let marked = packet.card(alloc);
    packet.edit(None, Some(payload), Some(row.number(4)));
    let edited = packet.card(alloc);
    packet.release();
    let mut shown = facts(alloc, &made?)?;
    for card in [marked?, edited?] {
        let facts = facts(alloc, &card)?;
        write!(shown, "; {facts}")?;
    }
    let shared = hex(alloc, bytes.as_slice())?;
    write!(shown, "; {shared}")?;
    Ok(shown)
}

/// What a packet is: number, visit, table, mark, priority, times, protocol, link header, bytes.
fn facts(alloc: Global, card: &Card) -> Result<String, AllocError> {
    let (number, visit, table) = (card.number, card.visit, card.table);
    let (mark, priority, protocol) = (card.mark, card.priority, card.protocol);
    let (seconds, micros) = (card.seconds, card.micros);
    let (link, bytes) = (
        hex(alloc, card.link.as_slice())?,
        hex(alloc, card.bytes.as_slice())?,
    );
    format!(in alloc;
        "{number} {visit} {table} {mark} {priority} {seconds}.{micros} {protocol} {link} {bytes}"
    )
}

/// A list of a text's characters; then without its first, and with a `z` in the place of the next.
fn sequence(alloc: Global, text: &str) -> Result<String, Fail> {
    threads_share::<(Bytes, Card, Packet, Letter)>();
    let mut names = Sequence::new(alloc);
    for name in text.chars() {
        if names.push(name).is_err() {
            return Ok(debug(alloc, NoMemory)?);
        }
    }
    let first = names.take_first();
    if let Some(next) = names.get_mut(0) {
        *next = 'z';
    }
    let (length, next) = (names.len(), names.get(0).copied());
    let borrowed: String = names.iter().copied().collect(alloc)?;
    let names = Sequence::from_vec(names.into_vec());
    let moved: String = names.into_iter().collect(alloc)?;
    Ok(format!(in alloc; "{first:?} {length} {next:?} {borrowed:?} {moved:?}")?)
}

/// Several threads may hold a value of this type, and hand it on.
fn threads_share<T: Send + Sync>() {}

/// A list of the first two characters, for which room is made.
fn stock(alloc: Global, text: &str) -> Result<String, Fail> {
    let mut names = Stock::new(alloc);
    names.make_room(2)?;
    let mut rest = text.chars();
    names.push(rest.next().unwrap_or('-'));
    names.push(rest.next().unwrap_or('-'));
    names.make_room(0)?;
    let mut shown = format!(in alloc; "{} {:?}", names.len(), names.as_slice())?;
    let first = names.into_sequence().take_first();
    write!(shown, " {first:?}")?;
    Ok(shown)
}
