//! `hook_chain`: rules files, where rules and decisions send a packet, and how flows are spread.

use hook_chain::{Decision, Tables, balance, onward, read_tables, route};
use ip_fields::fields;
use packet_entry::{IPV4, IPV6, MAX_VISITS, NoMemory, Packet};
use std::alloc::{AllocError, Global};
use std::test::Fail;
use test_inputs::{Row, bytes, debug};
use text_lines::LineFault;

/// What comes before and after a rule's matches, and its options, in a file of one table.
const MATCHES: (&str, &str) = ("-A FORWARD ", " -j NFQUEUE\n");

const OPTIONS: (&str, &str) = ("-A FORWARD -j NFQUEUE ", "\n");

const LINE: (&str, &str) = ("", "\n");

/// The most bytes of a rules file in the table.
const LONGEST: usize = 100_000;

/// The IPv4 packet of TCP from 10.0.0.1 to 10.0.0.2, of which rows give another.
const TCP: &str = "45000014 00010000 40060000 0a000001 0a000002";

/// What a call of this crate answers, printed. `rules` is the file of the lines above the row.
pub fn answer(alloc: Global, row: &Row<'_>, rules: &mut Vec<u8>) -> Result<Option<String>, Fail> {
    let shown = match row.call {
        "clear" => {
            rules.clear();
            String::new(alloc)
        }
        "repeat" => {
            repeat(rules, row.arguments)?;
            String::new(alloc)
        }
        "rules" => refused(alloc, rules)?,
        "file" => refused(alloc, &bytes(alloc, row.arguments)?)?,
        "line" => refused(alloc, &framed(alloc, LINE, row.arguments)?)?,
        "matches" => in_frame(alloc, MATCHES, row)?,
        "options" => in_frame(alloc, OPTIONS, row)?,
        "route" => sent(alloc, rules, row)?,
        "balance" => spread(alloc, row)?,
        _ => return Ok(None),
    };
    Ok(Some(shown))
}

/// Appends so many times a line: `TIMES LINE`.
fn repeat(rules: &mut Vec<u8>, arguments: &str) -> Result<(), AllocError> {
    let (times, line) = arguments.split_once(' ').unwrap_or(("", ""));
    for _ in 0..test_inputs::number(times) {
        rules.extend_from_slice(line.as_bytes())?;
        rules.push(b'\n')?;
    }
    Ok(())
}

/// A file of one table with this text in its frame.
fn framed(alloc: Global, frame: (&str, &str), text: &str) -> Result<Vec<u8>, AllocError> {
    let mut file = Vec::new(alloc);
    for piece in ["*filter\n", frame.0, text, frame.1, "COMMIT\n"] {
        file.extend_from_slice(piece.as_bytes())?;
    }
    Ok(file)
}

/// Reads a file.
fn read(alloc: Global, file: &[u8]) -> Result<Tables, LineFault> {
    if file.len() > LONGEST {
        return Err(LineFault::NoMemory);
    }
    read_tables(alloc, file)
}

/// Why a file is refused.
fn refused(alloc: Global, file: &[u8]) -> Result<String, Fail> {
    Ok(debug(alloc, read(alloc, file).err())?)
}

/// Where a file of one table with the row's first argument in this frame sends a packet: that of
/// `TCP`, with the second argument as its protocol and the third as its mark; or why it is refused.
fn in_frame(alloc: Global, frame: (&str, &str), row: &Row<'_>) -> Result<String, Fail> {
    let tables = match read(alloc, &framed(alloc, frame, row.argument(0))?) {
        Ok(tables) => tables,
        Err(fault) => return Ok(debug(alloc, fault)?),
    };
    let mut packet_bytes = bytes(alloc, TCP)?;
    if let Some(protocol) = packet_bytes.get_mut(9) {
        *protocol = (row.number(1) % 256) as u8;
    }
    let Some(mut packet) = packet(alloc, 1, &packet_bytes)? else {
        return Ok(debug(alloc, "no packet")?);
    };
    packet.edit(Some(row.number(2)), None, None);
    let next = route(&tables, KEY, &packet, 1);
    packet.destroy();
    Ok(debug(alloc, next)?)
}

/// The key at which the seed of the hash is 0.
const KEY: u32 = 559_038_725;

/// A packet with this number and these bytes.
fn packet(alloc: Global, number: u32, bytes: &[u8]) -> Result<Option<Packet>, NoMemory> {
    if bytes.len() > 100 {
        return Ok(None);
    }
    let protocol = match bytes.first() {
        Some(0x60) => IPV6,
        _ => IPV4,
    };
    Ok(Some(Packet::new(alloc, number.max(1), 0, 0, protocol, &[], bytes)?))
}

/// Where the rules send a packet: of these bytes or those of `TCP`, with this number, mark, key and
/// number of feeders; that enters them at table `from`, or that table 1 queued and a decision sends
/// on.
fn sent(alloc: Global, rules: &[u8], row: &Row<'_>) -> Result<String, Fail> {
    let feeders = row.named_number("feeders").unwrap_or(1).max(1).min(16);
    let tables = read(alloc, rules)?.with_feeders(feeders);
    let key = row.named_number("key").unwrap_or(0);
    let packet_bytes = bytes(alloc, row.named("bytes").unwrap_or(TCP))?;
    let number = row.named_number("packet").unwrap_or(1);
    let Some(mut packet) = packet(alloc, number, &packet_bytes)? else {
        return Ok(debug(alloc, "no packet")?);
    };
    packet.edit(row.named_number("mark"), None, None);
    let next = match decision(row) {
        None => Some(route(
            &tables,
            key,
            &packet,
            (row.named_number("from").unwrap_or(0) % 65_536) as u16,
        )),
        Some(decision) => {
            if packet.visit() < MAX_VISITS {
                packet.queued(1);
            }
            onward(&tables, key, &packet, &decision)
        }
    };
    packet.destroy();
    match next {
        Some(next) => Ok(debug(alloc, next)?),
        None => Ok(debug(alloc, None::<u8>)?),
    }
}

/// The decision that a row names.
fn decision(row: &Row<'_>) -> Option<Decision> {
    match row.named("after")? {
        "drop" => Some(Decision::Drop),
        "accept" => Some(Decision::Accept),
        "repeat" => Some(Decision::Repeat),
        "stop" => Some(Decision::Stop),
        number => Some(Decision::Queue {
            number: (test_inputs::number(number) % 65_536) as u16,
            bypass: row.has("bypass"),
        }),
    }
}

/// The queue of a packet's flow by key, first queue, how many there are, and the packet's bytes.
fn spread(alloc: Global, row: &Row<'_>) -> Result<String, Fail> {
    let (first, total) = (row.number(1).min(65_535), row.number(2).max(1));
    if total > 65_536 - first {
        return Ok(debug(alloc, "too many")?);
    }
    let found = fields(&row.bytes(alloc, 3)?);
    Ok(debug(
        alloc,
        balance(row.number(0), found.as_ref(), first as u16, total),
    )?)
}
