//! What ends at many queues: a port that closes, a device that goes down.

ghost use Rattle.std.specs.Prelude.{◌≡◌, ◌≤◌, ◌<◌, ◌+◌, ◌++◌, ℕ, None, IsSome, IfSome, IfNone};
ghost use Rattle.std.specs.BTreeMap.{btree_map_len};
ghost use Rattle.queue_core.specs.declared.event.Reply.TheVariants as reply;
ghost use Rattle.histories.specs.Numbers.{queue_count};
ghost use Rattle.histories.specs.States.{state_of, told, taken_in};
ghost use Rattle.histories.specs.Happenings.{closing_of, down_of, closings, downs};
ghost use Rattle.place_history.specs.PlaceInvariant.{IsReplayed, HasRoom};

use super::bound;
use super::held::{Held, append, port_of};
use histories::{Entry, ports_and_devices_reach_bound_queues};
use queue_core::{Event, Reply};

/// The first bound queue from this number on, by ascending number.
pub(super) fn next_bound(held: &Held, from: u32) -> Option<u16>
    requires replayed { IsReplayed held.now }
    ensures found { IfSome result (λ n.
        (from ≤ n) × IsSome (state_of held.now.entries.items n)) }
    ensures first { IfSome result (λ n. (q : ℕ) → from ≤ q → q < n →
        state_of held.now.entries.items q ≡ None) }
    ensures none { IfNone result ((q : ℕ) → from ≤ q → q < queue_count →
        state_of held.now.entries.items q ≡ None) }
{
    let from = u16::try_from(from).ok()?;
    match held.queues.range(from..).next() {
        Some((number, _)) => Some(*number),
        None => None,
    }
}

/// The entry of a port that closes or a device that goes down, with how many packets it destroyed.
fn flushed(queue: u16, event: Event, taken: u32) -> Entry
    ensures { result ≡ record { queue = queue; event = event; reply = reply.Flushed taken } }
{
    Entry {
        queue,
        event,
        reply: Reply::Flushed { taken },
    }
}

/// A port closes at a bound queue, where the queue is bound to it: how many packets were destroyed.
/// Takes no memory.
fn close_at(held: &mut Held, port: u32, number: u16) -> u32
    requires replayed { IsReplayed held.old }
    requires no_offer { held.old.offer ≡ None }
    requires room { HasRoom held.old 0 }
    requires bound { IsSome (state_of held.old.entries.items number) }
    ensures replayed { IsReplayed held.new }
    ensures no_offer { held.new.offer ≡ None }
    ensures room { HasRoom held.new 0 }
    ensures entries { held.new.entries.items ≡ held.old.entries.items
        ++ closing_of port number (state_of held.old.entries.items number) }
    ensures taken { result
        ≡ taken_in (closing_of port number (state_of held.old.entries.items number)) }
{
    if port_of(held, number) != Some(port) {
        return 0;
    }
    let taken = bound::take_out(&mut held.queues, number);
    append(held, flushed(number, Event::PortClosed { port }, taken));
    taken
}

/// A device goes down at a bound queue: how many packets were destroyed. Takes no memory.
fn down_at(held: &mut Held, device: u32, number: u16) -> u32
    requires replayed { IsReplayed held.old }
    requires no_offer { held.old.offer ≡ None }
    requires room { 0 < held.old.entries.room }
    requires bound { IsSome (state_of held.old.entries.items number) }
    ensures replayed { IsReplayed held.new }
    ensures no_offer { held.new.offer ≡ None }
    ensures as_many { btree_map_len held.new.queues ≡ btree_map_len held.old.queues }
    ensures room { held.new.entries.room + 1 ≡ held.old.entries.room }
    ensures entries { held.new.entries.items ≡ held.old.entries.items
        ++ down_of device number (state_of held.old.entries.items number) }
    ensures taken { result
        ≡ taken_in (down_of device number (state_of held.old.entries.items number)) }
{
    let taken = bound::device_down(&mut held.queues, number, device);
    append(held, flushed(number, Event::DeviceDown { device }, taken));
    taken
}

/// A port closes: each queue that is bound to it ends, with all that waits in it destroyed. Answers
/// how many packets that was; the number stops at 4,294,967,295. Takes no memory.
pub(super) fn close_port(held: &mut Held, port: u32) -> u32
    requires replayed { IsReplayed held.old }
    requires no_offer { held.old.offer ≡ None }
    requires room { HasRoom held.old 0 }
    ensures replayed { IsReplayed held.new }
    ensures no_offer { held.new.offer ≡ None }
    ensures room { HasRoom held.new 0 }
    ensures entries { held.new.entries.items ≡ held.old.entries.items
        ++ closings port held.old.entries.items }
    ensures taken { result ≡ told (taken_in (closings port held.old.entries.items)) }
{
    ports_and_devices_reach_bound_queues();
    let mut taken = 0u32;
    let mut from = 0u32;
    while let Some(number) = next_bound(held, from) {
        taken = taken.saturating_add(close_at(held, port, number));
        from = number as u32 + 1;
    }
    taken
}

/// A device goes down at each bound queue: how many packets were destroyed; the number stops at
/// 4,294,967,295. Takes no memory.
pub(super) fn device_down(held: &mut Held, device: u32) -> u32
    requires replayed { IsReplayed held.old }
    requires no_offer { held.old.offer ≡ None }
    requires room { HasRoom held.old (btree_map_len held.old.queues) }
    ensures replayed { IsReplayed held.new }
    ensures no_offer { held.new.offer ≡ None }
    ensures room { HasRoom held.new 0 }
    ensures entries { held.new.entries.items ≡ held.old.entries.items
        ++ downs device held.old.entries.items }
    ensures taken { result ≡ told (taken_in (downs device held.old.entries.items)) }
{
    ports_and_devices_reach_bound_queues();
    let mut taken = 0u32;
    let mut from = 0u32;
    while let Some(number) = next_bound(held, from) {
        taken = taken.saturating_add(down_at(held, device, number));
        from = number as u32 + 1;
    }
    taken
}
