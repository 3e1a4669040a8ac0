//! The step of a queue number, and whether an entry is one.

ghost use Rattle.std.specs.Prelude.{◌≡◌, ◌↔◌, ◌≤◌, Some, IsTrue, OnOk, IfOk};
ghost use Rattle.queue_core.specs.Step as queue_step;
ghost use Rattle.queue_core.specs.declared.event.Reply.TheVariants.{Flushed};
ghost use Rattle.histories.specs.History as history;

use crate::arrivals::{LAST_VISIT, arrive};
use crate::requests::{ask, end, port_of};
use crate::standing::Standing;
use histories::{Entry, Event, Reply};
use packet_entry::{Card, NoMemory};
use std::alloc::Global;

/// The indexes of the two devices by which every packet comes in and goes out.
const INPUT_DEVICE: u32 = 1;

const OUTPUT_DEVICE: u32 = 2;

/// Makes the step of an entry's event, and answers whether the entry is that step: the event may
/// happen, and its reply is the step's. When memory runs out, the state may be any.
pub(crate) fn is_step(
    queue: &mut Option<Standing>,
    alloc: Global,
    entry: &Entry,
) -> Result<bool, NoMemory>
    ensures is { IfOk result (λ is. IsTrue is ↔ history.IsStep queue.old entry.now) }
    ensures state { OnOk result
        (queue.new ≡ (queue_step.step queue.old entry.now.event).state) }
{
    let is_allowed = is_allowed(queue, &entry.event);
    let reply = step(queue, alloc, &entry.event)?;
    Ok(is_allowed && reply == entry.reply)
}

/// Makes the step of an event.
fn step(queue: &mut Option<Standing>, alloc: Global, event: &Event) -> Result<Reply, NoMemory>
    ensures reply { IfOk result (λ reply.
        (queue_step.step queue.old event.now).reply ≡ reply) }
    ensures state { OnOk result ((queue_step.step queue.old event.now).state ≡ queue.new) }
{
    match event {
        Event::Arrive { card, bypass, room } => Ok(Reply::Arrived {
            outcome: arrive(queue, card, *bypass, *room)?,
        }),
        Event::Ask { port, request, .. } => ask(queue, alloc, *port, request),
        Event::PortClosed { .. } => Ok(Reply::Flushed { taken: end(queue) }),
        Event::DeviceDown { device } => Ok(Reply::Flushed {
            taken: device_down(queue, *device),
        }),
    }
}

/// A device goes down. Answers how many packets are destroyed.
fn device_down(queue: &mut Option<Standing>, device: u32) -> u32
    ensures reply { (queue_step.device_down queue.old device).reply ≡ Flushed result }
    ensures state { (queue_step.device_down queue.old device).state ≡ queue.new }
{
    match queue {
        Some(bound) if device == INPUT_DEVICE || device == OUTPUT_DEVICE => bound.waiting.clear(),
        _ => 0,
    }
}

/// Whether an event may happen at a queue number.
fn is_allowed(queue: &Option<Standing>, event: &Event) -> bool
    ensures { IsTrue result ↔ history.IsAllowed queue.now event.now }
{
    match event {
        Event::Arrive { card, room, .. } => {
            1 <= card.visit && card.visit <= LAST_VISIT && (*room || !is_decided_early(queue, card))
        }
        Event::Ask { .. } => true,
        Event::PortClosed { port } => port_of(queue) == Some(*port),
        Event::DeviceDown { .. } => queue.is_some(),
    }
}

/// Whether an arrival is decided before a notice is offered.
fn is_decided_early(queue: &Option<Standing>, card: &Card) -> bool
    ensures { result ≡ queue_step.is_decided_early queue.now card.now }
{
    match queue {
        Some(bound) => card.visit == LAST_VISIT || bound.turns_away(),
        None => true,
    }
}
