//! What ports ask at the place of the rows.

ghost use Rattle.std.specs.Prelude.{◌≤◌, IfOk, IfSome, length};
ghost use Rattle.packet_entry.specs.Numbers.{longest_payload};
ghost use Rattle.place_history.specs.Calls.{IsOnly};
ghost use Rattle.histories.specs.Happenings.{payload_of};

use crate::packets::released;
use nfqa_msgs::{Head, Params, Request};
use packet_entry::{Bytes, MAX_PAYLOAD, NoMemory};
use place_history::Place;
use queue_core::Handed;
use std::alloc::Global;
use std::test::Fail;
use test_inputs::{Row, add, bytes, debug};

/// The errno of a row's request, and the packets that it hands out.
pub fn ask(alloc: Global, place: &mut Place, row: &Row<'_>) -> Result<String, Fail>
    requires { IsOnly place.old }
    ensures { IsOnly place.new }
{
    let request = request(alloc, row)?;
    let port = row.named_number("port").unwrap_or(7);
    let mut handed = Handed::new(alloc);
    let errno = place.ask(alloc, port, 1, request, &mut handed);
    let packets = released(alloc, handed)?;
    let mut shown = debug(alloc, errno?)?;
    if !packets.is_empty() {
        add(&mut shown, packets.as_str())?;
    }
    Ok(shown)
}

/// A row's request, with what the row names.
fn request(alloc: Global, row: &Row<'_>) -> Result<Request, NoMemory>
    ensures { IfOk result
        (λ asked. IfSome (payload_of asked) (λ bytes. length bytes ≤ longest_payload)) }
{
    let queue = (row.named_number("queue").unwrap_or(0) % 65_536) as u16;
    let (mark, priority) = (row.named_number("mark"), row.named_number("priority"));
    Ok(match row.call {
        "config" => config(queue, row),
        "verdict" => {
            let head = head(row);
            let payload = payload(alloc, row)?;
            Request::Verdict {
                queue,
                head,
                mark,
                payload,
                priority,
            }
        }
        _ => {
            let head = head(row);
            Request::Batch {
                queue,
                head,
                mark,
                priority,
            }
        }
    })
}

fn config(queue: u16, row: &Row<'_>) -> Request
    ensures { IfSome (payload_of result) (λ bytes. length bytes ≤ longest_payload) }
{
    let range = row.named_number("range").unwrap_or(0);
    Request::Config {
        queue,
        command: row
            .named_number("command")
            .map(|command| (command % 256) as u8),
        params: row.named_number("mode").map(|mode| Params {
            range,
            mode: (mode % 256) as u8,
        }),
        maxlen: row.named_number("maxlen"),
        flags: row.named_number("flags"),
        mask: row.named_number("mask"),
    }
}

/// The verdict and the id, or the last id, that a row names.
fn head(row: &Row<'_>) -> Option<Head> {
    let id = row.named_number("id")?;
    let verdict = row.named_number("verdict").unwrap_or(1);
    Some(Head { verdict, id })
}

fn payload(alloc: Global, row: &Row<'_>) -> Result<Option<Bytes>, NoMemory>
    ensures { IfOk result (λ payload. IfSome payload (λ bytes. length bytes ≤ longest_payload)) }
{
    let Some(word) = row.named("payload") else {
        return Ok(None);
    };
    let mut given = bytes(alloc, word)?;
    given.truncate(MAX_PAYLOAD);
    Ok(Some(Bytes::copy(alloc, &given)?))
}

/// Verdicts that accept the even ids up to `last`, the last of them first: how many are answered
/// with 0.
pub fn evens(alloc: Global, place: &mut Place, row: &Row<'_>) -> Result<String, Fail>
    requires { IsOnly place.old }
    ensures { IsOnly place.new }
{
    let last = row.named_number("last").unwrap_or(0);
    let mut done = 0u32;
    for passed in 0..last / 2 {
        let head = Some(Head {
            verdict: 1,
            id: (last / 2 - passed) * 2,
        });
        let request = Request::Verdict {
            queue: 0,
            head,
            mark: None,
            payload: None,
            priority: None,
        };
        let mut handed = Handed::new(alloc);
        let errno = place.ask(alloc, 7, 1, request, &mut handed);
        released(alloc, handed)?;
        if errno? == 0 {
            done = done.saturating_add(1);
        }
    }
    Ok(debug(alloc, done)?)
}
