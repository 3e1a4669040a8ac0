//! The queues that are bound, by number, and one call at one of them.

ghost use Rattle.std.specs.Prelude.{◌≡◌, ◌≢◌, ◌≤◌, ◌+◌, ◌++◌, ℕ, [], length, Some, None, false};
ghost use Rattle.std.specs.Prelude.{◌∷◌, IsSomeAnd, IfSome, IfOk, OnOk, IfErr, OnErr, option_map};
ghost use Rattle.std.specs.BTreeMap.{btree_map_len};
ghost use Rattle.packet_entry.specs.Numbers.{longest_payload};
ghost use Rattle.nfqa_msgs.specs.declared.request.Request.TheVariants.{Verdict, Batch};
ghost use Rattle.queue_core.specs.declared.event.Event.TheVariants.{Ask, PortClosed, DeviceDown};
ghost use Rattle.queue_core.specs.declared.event.Reply.TheVariants.{Flushed};
ghost use Rattle.queue_core.specs.Calls.{BeginsArrival, SettlesArrival, hands_out, batch_handed};
ghost use Rattle.queue_core.specs.Decision.{IsVerdict};
ghost use Rattle.queue_core.specs.State.{configured};
ghost use Rattle.queue_core.specs.Step.{are_flags_refused, all_gone, step, unchanged};
ghost use Rattle.place_history.specs.Changes.{queue_at, OthersStay, Changes, AreSame};

use hook_chain::Decision;
use nfqa_msgs::{Head, Params};
use packet_entry::{BufferPool, Bytes, NoMemory, Packet};
use queue_core::{Begun, ENODEV, ENOENT, Handed, NoRoom, Queue, Settled, ruling};
use std::alloc::Global;
use std::collections::BTreeMap;

/// The bound queues, by ascending number.
pub(super) type Queues = BTreeMap<u16, Queue>;

/// Begins an arrival at a queue, whose notice is written into a buffer of the pool. Where the queue
/// is absent, the packet comes back.
pub(super) fn begin(
    queues: &mut Queues,
    alloc: Global,
    number: u16,
    packet: Packet,
    pool: &mut BufferPool,
) -> Result<Result<Begun, NoRoom>, Packet>
    requires no_offer { IfSome (queue_at queues.old number) (λ q. q.offer ≡ None) }
    ensures begun { IfOk result (λ asked. IfOk asked (λ begun.
        Changes queues.old queues.new number
        (λ old new. BeginsArrival begun number packet old new))) }
    ensures no_room { IfOk result (λ asked. IfErr asked (λ back. back.packet ≡ packet)) }
    ensures unchanged { IfOk result (λ asked. OnErr asked (AreSame queues.old queues.new)) }
    ensures absent { OnErr result (queue_at queues.old number ≡ None) }
    ensures returned { IfErr result (λ back. back ≡ packet) }
    ensures err { OnErr result (AreSame queues.old queues.new) }
{
    let Some(queue) = queues.get_mut(&number) else {
        return Err(packet);
    };
    Ok(queue.begin_in(alloc, number, packet, pool))
}

/// Settles the arrival that was begun at a bound queue. Takes no memory.
pub(super) fn settle(queues: &mut Queues, number: u16, room: bool) -> Settled
    requires offered { IsSomeAnd (queue_at queues.old number) (λ q. q.offer ≢ None) }
    ensures { Changes queues.old queues.new number (λ old new.
        IfSome old.offer (λ o. SettlesArrival result o.1 room old new)) }
{
    let Some(queue) = queues.get_mut(&number) else {
        unreachable!()
    };
    queue.settle(room)
}

/// Carries out a verdict of a port at a queue: what leaves, or the errno where nothing does. Takes
/// no memory.
pub(super) fn verdict(
    queues: &mut Queues,
    number: u16,
    port: u32,
    head: Option<Head>,
    mark: Option<u32>,
    payload: Option<Bytes>,
    priority: Option<u32>,
) -> Result<(Packet, Decision), u16>
    requires payload { IfSome payload (λ bytes. length bytes ≤ longest_payload) }
    requires no_offer { IfSome (queue_at queues.old number) (λ q. q.offer ≡ None) }
    ensures leaves { IfOk result (λ out. Changes queues.old queues.new number (λ old new.
        (new.offer ≡ None) × ((queue call : ℕ) →
        step (Some old.state) (Ask port call (Verdict queue head mark payload priority))
        ≡ hands_out new.state (out ∷ [])))) }
    ensures refused { IfErr result (λ errno. (queue call : ℕ) →
        step (option_map (λ q. q.state) (queue_at queues.old number))
        (Ask port call (Verdict queue head mark payload priority))
        ≡ unchanged (option_map (λ q. q.state) (queue_at queues.old number)) errno) }
    ensures err { OnErr result (AreSame queues.old queues.new) }
{
    let Some(queue) = queues.get_mut(&number) else {
        return Err(ENODEV);
    };
    verdict_at(queue, port, head, mark, payload, priority)
}

/// Carries out a verdict of a port at a bound queue: what leaves, or the errno where nothing does.
/// Takes no memory.
fn verdict_at(
    queue: &mut Queue,
    port: u32,
    head: Option<Head>,
    mark: Option<u32>,
    payload: Option<Bytes>,
    priority: Option<u32>,
) -> Result<(Packet, Decision), u16>
    requires payload { IfSome payload (λ bytes. length bytes ≤ longest_payload) }
    requires no_offer { queue.old.offer ≡ None }
    ensures leaves { IfOk result (λ out. (number call : ℕ) →
        step (Some queue.old.state) (Ask port call (Verdict number head mark payload priority))
        ≡ hands_out queue.new.state (out ∷ [])) }
    ensures no_offer { OnOk result (queue.new.offer ≡ None) }
    ensures refused { IfErr result (λ errno. (number call : ℕ) →
        step (Some queue.old.state) (Ask port call (Verdict number head mark payload priority))
        ≡ unchanged (Some queue.old.state) errno) }
    ensures err { OnErr result (queue.new ≡ queue.old) }
{
    match ruling(Some(queue.port()), port, head) {
        Ok(head) => queue.verdict(head, mark, payload, priority).ok_or(ENOENT),
        Err(errno) => Err(errno),
    }
}

/// Carries out a batch at a bound queue, and appends what it hands out.
pub(super) fn batch(
    queues: &mut Queues,
    number: u16,
    head: Head,
    mark: Option<u32>,
    priority: Option<u32>,
    out: &mut Handed,
) -> Result<u32, NoMemory>
    requires known { IsVerdict head.verdict }
    requires bound { IsSomeAnd (queue_at queues.old number) (λ q. q.offer ≡ None) }
    ensures handed { IfOk result (λ count. Changes queues.old queues.new number (λ old new.
        (new.offer ≡ None)
        × (count ≡ length (batch_handed old.state head mark priority))
        × (out.new.items ≡ out.old.items ++ batch_handed old.state head mark priority)
        × ((queue call : ℕ) →
        step (Some old.state) (Ask old.state.port call (Batch queue (Some head) mark priority))
        ≡ hands_out new.state (batch_handed old.state head mark priority)))) }
    ensures err { OnErr result (AreSame queues.old queues.new) }
    ensures out { OnErr result (out.new.items ≡ out.old.items) }
{
    let Some(queue) = queues.get_mut(&number) else {
        unreachable!()
    };
    queue.batch(head, mark, priority, out)
}

/// Sets a bound queue up, as a request that isn't refused asks for. Takes no memory.
pub(super) fn configure(
    queues: &mut Queues,
    number: u16,
    params: Option<Params>,
    maxlen: Option<u32>,
    flags: Option<u32>,
    mask: Option<u32>,
)
    requires allowed { are_flags_refused flags mask ≡ false }
    requires bound { IsSomeAnd (queue_at queues.old number) (λ q. q.offer ≡ None) }
    ensures { Changes queues.old queues.new number (λ old new. (new.offer ≡ None)
        × (new.state ≡ configured params maxlen flags mask old.state)) }
{
    let Some(queue) = queues.get_mut(&number) else {
        unreachable!()
    };
    queue.configure(params, maxlen, flags, mask)
}

/// A device goes down at a bound queue: how many packets were destroyed. Takes no memory.
pub(super) fn device_down(queues: &mut Queues, number: u16, device: u32) -> u32
    requires bound { IsSomeAnd (queue_at queues.old number) (λ q. q.offer ≡ None) }
    ensures { Changes queues.old queues.new number (λ old new. (new.offer ≡ None)
        × ((step (Some old.state) (DeviceDown device)).state ≡ Some new.state)
        × ((step (Some old.state) (DeviceDown device)).reply ≡ Flushed result)) }
{
    let Some(queue) = queues.get_mut(&number) else {
        unreachable!()
    };
    queue.device_down(device)
}

/// Takes a bound queue out, with all that waits in it destroyed: how many packets that was. Takes
/// no memory.
pub(super) fn take_out(queues: &mut Queues, number: u16) -> u32
    requires bound { IsSomeAnd (queue_at queues.old number) (λ q. q.offer ≡ None) }
    ensures gone { queue_at queues.new number ≡ None }
    ensures others { OthersStay queues.old queues.new number }
    ensures fewer { btree_map_len queues.new + 1 ≡ btree_map_len queues.old }
    ensures closed { IsSomeAnd (queue_at queues.old number) (λ old.
        step (Some old.state) (PortClosed old.state.port)
        ≡ record { state = None; reply = Flushed result; left = all_gone old.state }) }
    ensures count { IsSomeAnd (queue_at queues.old number) (λ old.
        result ≡ length old.state.waiting) }
{
    let Some(mut queue) = queues.remove(&number) else {
        unreachable!()
    };
    let destroyed = queue.flush();
    queue.finish();
    destroyed
}

/// Puts a new queue in, in which nothing waits. When memory runs out the queue is gone, and nothing
/// has changed.
pub(super) fn put_in(queues: &mut Queues, number: u16, queue: Queue) -> Result<(), NoMemory>
    requires absent { queue_at queues.old number ≡ None }
    requires empty { queue.state.waiting ≡ [] }
    requires no_offer { queue.offer ≡ None }
    ensures is { OnOk result (queue_at queues.new number ≡ Some queue) }
    ensures others { OnOk result (OthersStay queues.old queues.new number) }
    ensures more { OnOk result (btree_map_len queues.new ≡ btree_map_len queues.old + 1) }
    ensures err { OnErr result (AreSame queues.old queues.new) }
{
    match queues.insert(number, queue) {
        Ok(before) => match before {
            None => Ok(()),
            Some(_) => unreachable!(),
        },
        Err(failed) => {
            let (_, queue) = failed.value;
            queue.finish();
            Err(NoMemory)
        }
    }
}

/// Ends all queues, with all that waits in them destroyed. Takes no memory.
pub(super) fn end_all(queues: &mut Queues)
    requires no_offers { (q : ℕ) → IfSome (queue_at queues.old q) (λ w. w.offer ≡ None) }
    ensures { queues.new.entries ≡ [] }
{
    while let Some((number, _)) = queues.first_key_value() {
        let number = *number;
        take_out(queues, number);
    }
}
