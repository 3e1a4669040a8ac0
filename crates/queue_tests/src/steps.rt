//! `place_history`: what is done at the place of the rows, and what is entered by it.

ghost use Rattle.place_history.specs.Calls.{IsOnly};

use crate::packets::{ended, only};
use crate::{apart, arrivals, batches, by_hand, ledgers, requests};
use place_history::Place;
use queue_core::Event;
use std::alloc::{AllocError, Global};
use std::fmt::Write;
use std::marker::{Send, Sync};
use std::mem;
use std::test::Fail;
use test_inputs::{Row, debug};

/// What a call answers, printed, and the entries that it made: queue, event and reply of each.
pub fn answer(alloc: Global, place: &mut Place, row: &Row<'_>) -> Result<String, Fail>
    requires { IsOnly place.old }
    ensures { IsOnly place.new }
{
    let before = place.entries().len();
    let mut shown = called(alloc, place, row)?;
    let entries = place.entries().get(before..).unwrap_or(&[]);
    if entries.len() <= 8 {
        for entry in entries {
            let event = event(alloc, &entry.event)?;
            write!(shown, " | {} {event} {:?}", entry.queue, entry.reply)?;
        }
    }
    Ok(shown)
}

/// What happened: an arrival's visit, and whether it was with the bypass, and without room; who
/// asked; what was closed or went down.
fn event(alloc: Global, event: &Event) -> Result<String, AllocError> {
    match event {
        Event::Arrive { card, bypass, room } => {
            let by = if *bypass { " bypass" } else { "" };
            let full = if *room { "" } else { " full" };
            format!(in alloc; "arrive {}{by}{full}", card.visit)
        }
        Event::Ask {
            port,
            call: _,
            request: _,
        } => format!(in alloc; "ask {port}"),
        Event::PortClosed { port } => format!(in alloc; "closed {port}"),
        Event::DeviceDown { device } => format!(in alloc; "down {device}"),
    }
}

fn called(alloc: Global, place: &mut Place, row: &Row<'_>) -> Result<String, Fail>
    requires { IsOnly place.old }
    ensures { IsOnly place.new }
{
    let number = row.named_number("queue").unwrap_or(0);
    let queue = (number % 65_536) as u16;
    match row.call {
        "new" => {
            by_hand::laws();
            threads_share::<Place>();
            ended(mem::replace(place, only(alloc)));
            Ok(String::new(alloc))
        }
        "arrive" => arrivals::arrive(alloc, place, row),
        "many" => arrivals::many(alloc, place, row),
        "config" | "verdict" | "batch" => requests::ask(alloc, place, row),
        "evens" => requests::evens(alloc, place, row),
        "close" => Ok(debug(alloc, place.close_port(row.number(0)))?),
        "down" => Ok(debug(alloc, place.device_down(row.number(0))?)?),
        "listing" => listing(alloc, place),
        "state" => {
            let (port, waiting) = (place.port_of(queue), place.waiting_in(queue));
            Ok(format!(in alloc; "{port:?} {waiting} {}", place.waiting())?)
        }
        "ledger" => ledgers::ledger(alloc, place, row),
        "share" => batches::share(alloc, row),
        "apart" => apart::apart(alloc),
        _ => Ok(debug(alloc, "no such call")?),
    }
}

fn listing(alloc: Global, place: &Place) -> Result<String, Fail>
    requires { IsOnly place.now }
{
    let mut lines = Vec::new(alloc);
    place.listing(alloc, &mut lines)?;
    Ok(debug(alloc, str::from_utf8(&lines).unwrap_or("no text"))?)
}

/// Several threads may hold a value of this type, and hand it on.
fn threads_share<T: Send + Sync>() {}
