//! What ports ask of queues, carried out and entered.

ghost use Rattle.std.specs.Prelude.{◌≡◌, ℕ, ◌≤◌, ◌<◌, ◌++◌, [], length, Some, None};
ghost use Rattle.std.specs.Prelude.{IfSome, IfOk, OnOk, OnErr, IsSomeAnd, nat_eq, if◌then◌else◌};
ghost use Rattle.packet_entry.specs.Numbers.{longest_payload};
ghost use Rattle.nfqa_msgs.specs.Numbers.{enoent};
ghost use Rattle.nfqa_msgs.specs.declared.request.Request.TheVariants.{Config, Verdict, Batch};
ghost use Rattle.queue_core.specs.declared.event.Event.TheVariants.{Ask};
ghost use Rattle.queue_core.specs.declared.event.Reply.TheVariants.{Answer};
ghost use Rattle.queue_core.specs.Calls.{batch_handed, ways_of, hands_out};
ghost use Rattle.queue_core.specs.Decision.{IsVerdict};
ghost use Rattle.queue_core.specs.Step.{step, way_of};
ghost use Rattle.histories.specs.States.{state_of};
ghost use Rattle.place_history.specs.Changes.{queue_at, Changes, AreSame};
ghost use Rattle.histories.specs.Happenings.{handed_of, all_handed};
ghost use Rattle.queue_core.specs.declared.lines.ConfigLine.TheVariants as line;
ghost use Rattle.queue_core.specs.Lines.{IsConfigLine, IsAllowed};
ghost use Rattle.place_history.specs.Asking.{asked, config_event};
ghost use Rattle.place_history.specs.PlaceInvariant.{IsReplayed, HasRoom, Enters, HandsOut};

use super::bound;
use super::bound::Queues;
use super::held::{Held, append, note, port_of};
use histories::Entry;
use hook_chain::Decision;
use nfqa_msgs::{Head, Params, Request, share_payload};
use packet_entry::{Bytes, NoMemory, Packet};
use queue_core::{
    ConfigLine, DROP, ENOENT, Event, Handed, Queue, Reply, VERDICT_MASK, config_line, ruling,
};
use std::alloc::Global;

/// Who asks, and at which queue: a port, by the message with this number among its messages.
#[derive(Clone, Copy)]
pub(super) struct Asker {
    pub(super) port: u32,
    pub(super) call: u32,
    pub(super) queue: u16,
}

/// What a config request asks for.
#[derive(Clone, Copy)]
pub(super) struct ConfigRequest {
    pub(super) command: Option<u8>,
    pub(super) params: Option<Params>,
    pub(super) maxlen: Option<u32>,
    pub(super) flags: Option<u32>,
    pub(super) mask: Option<u32>,
}

/// The entry of a request that was answered so.
fn answered(asker: Asker, request: Request, errno: u16, taken: u32) -> Entry
    ensures { result ≡ record {
      queue = asker.queue;
      event = Ask asker.port asker.call request;
      reply = Answer errno taken;
    } }
{
    Entry {
        queue: asker.queue,
        event: Event::Ask {
            port: asker.port,
            call: asker.call,
            request,
        },
        reply: Reply::Answer { errno, taken },
    }
}

impl ConfigRequest {
    /// The request itself.
    fn request(self, queue: u16) -> Request
        ensures { result ≡ Config queue self.command self.params self.maxlen self.flags
            self.mask }
    {
        Request::Config {
            queue,
            command: self.command,
            params: self.params,
            maxlen: self.maxlen,
            flags: self.flags,
            mask: self.mask,
        }
    }
}

/// Carries out a config request, for whose entry there is room, and answers its errno. When memory
/// runs out nothing has happened.
pub(super) fn config(
    held: &mut Held,
    alloc: Global,
    asker: Asker,
    ask: ConfigRequest,
) -> Result<u16, NoMemory>
    requires replayed { IsReplayed held.old }
    requires no_offer { held.old.offer ≡ None }
    requires room { HasRoom held.old 2 }
    ensures replayed { IsReplayed held.new }
    ensures no_offer { held.new.offer ≡ None }
    ensures room { HasRoom held.new 0 }
    ensures entered { IfOk result (λ errno.
        Enters held.old held.new asker.queue (config_event asker ask) errno []) }
    ensures entries { OnErr result (held.new.entries.items ≡ held.old.entries.items) }
{
    let port = port_of(held, asker.queue);
    match config_line(port, asker.port, ask.command, ask.flags, ask.mask) {
        ConfigLine::Answered { errno } => {
            note(held, answered(asker, ask.request(asker.queue), errno, 0));
            Ok(errno)
        }
        ConfigLine::Ends => {
            end(held, asker, ask);
            Ok(0)
        }
        ConfigLine::Binds => {
            bind(held, alloc, asker, ask)?;
            Ok(0)
        }
        ConfigLine::SetsUp => {
            set_up(held, asker, ask);
            Ok(0)
        }
    }
}

/// Ends a bound queue, with all that waits in it destroyed. Takes no memory.
fn end(held: &mut Held, asker: Asker, ask: ConfigRequest)
    requires replayed { IsReplayed held.old }
    requires no_offer { held.old.offer ≡ None }
    requires room { HasRoom held.old 1 }
    requires line { IsConfigLine line.Ends (state_of held.old.entries.items asker.queue)
        asker.port (asked ask) }
    ensures replayed { IsReplayed held.new }
    ensures no_offer { held.new.offer ≡ None }
    ensures room { HasRoom held.new 0 }
    ensures entered { Enters held.old held.new asker.queue (config_event asker ask) 0 [] }
{
    let taken = bound::take_out(&mut held.queues, asker.queue);
    append(held, answered(asker, ask.request(asker.queue), 0, taken));
}

/// Binds a new queue to the sender, and sets it up. When memory runs out nothing has happened.
fn bind(held: &mut Held, alloc: Global, asker: Asker, ask: ConfigRequest) -> Result<(), NoMemory>
    requires replayed { IsReplayed held.old }
    requires no_offer { held.old.offer ≡ None }
    requires room { HasRoom held.old 2 }
    requires line { IsConfigLine line.Binds (state_of held.old.entries.items asker.queue)
        asker.port (asked ask) }
    ensures replayed { IsReplayed held.new }
    ensures no_offer { held.new.offer ≡ None }
    ensures room { HasRoom held.new 0 }
    ensures entered { OnOk result
        (Enters held.old held.new asker.queue (config_event asker ask) 0 []) }
    ensures entries { OnErr result (held.new.entries.items ≡ held.old.entries.items) }
{
    let mut queue = Queue::bind(alloc, asker.port);
    queue.configure(ask.params, ask.maxlen, ask.flags, ask.mask);
    bound::put_in(&mut held.queues, asker.queue, queue)?;
    append(held, answered(asker, ask.request(asker.queue), 0, 0));
    Ok(())
}

/// Sets a bound queue up. Takes no memory.
fn set_up(held: &mut Held, asker: Asker, ask: ConfigRequest)
    requires replayed { IsReplayed held.old }
    requires no_offer { held.old.offer ≡ None }
    requires room { HasRoom held.old 1 }
    requires line { IsConfigLine line.SetsUp (state_of held.old.entries.items asker.queue)
        asker.port (asked ask) }
    ensures replayed { IsReplayed held.new }
    ensures no_offer { held.new.offer ≡ None }
    ensures room { HasRoom held.new 0 }
    ensures entered { Enters held.old held.new asker.queue (config_event asker ask) 0 [] }
{
    bound::configure(
        &mut held.queues,
        asker.queue,
        ask.params,
        ask.maxlen,
        ask.flags,
        ask.mask,
    );
    append(held, answered(asker, ask.request(asker.queue), 0, 0));
}

/// Carries out a verdict request, for whose entry there is room, and answers its errno. What leaves
/// is handed out, unless its verdict is to drop it. When memory runs out nothing has happened.
pub(super) fn verdict(
    held: &mut Held,
    asker: Asker,
    head: Option<Head>,
    mark: Option<u32>,
    payload: Option<Bytes>,
    priority: Option<u32>,
    handed: &mut Handed,
) -> Result<u16, NoMemory>
    requires replayed { IsReplayed held.old }
    requires no_offer { held.old.offer ≡ None }
    requires room { HasRoom held.old 1 }
    requires payload { IfSome payload (λ bytes. length bytes ≤ longest_payload) }
    ensures replayed { IsReplayed held.new }
    ensures no_offer { held.new.offer ≡ None }
    ensures room { HasRoom held.new 0 }
    ensures entered { IfOk result (λ errno. HandsOut held.old held.new asker.queue
        (Ask asker.port asker.call (Verdict asker.queue head mark payload priority)) errno
        handed.old.items handed.new.items) }
    ensures entries { OnErr result (held.new.entries.items ≡ held.old.entries.items) }
    ensures handed { OnErr result (handed.new.items ≡ handed.old.items) }
{
    let request = Request::Verdict {
        queue: asker.queue,
        head,
        mark,
        payload: share_payload(&payload)?,
        priority,
    };
    handed.make_room(1)?;
    match bound::verdict(
        &mut held.queues,
        asker.queue,
        asker.port,
        head,
        mark,
        payload,
        priority,
    ) {
        Ok((packet, decision)) => {
            append(held, answered(asker, request, 0, 1));
            hand_on(handed, packet, decision);
            Ok(0)
        }
        Err(errno) => {
            note(held, answered(asker, request, errno, 0));
            Ok(errno)
        }
    }
}

/// Hands a packet on, for which there is room; or destroys it, where that was decided.
fn hand_on(handed: &mut Handed, packet: Packet, decision: Decision)
    requires room { 0 < handed.old.room }
    ensures { handed.new.items
        ≡ handed.old.items ++ handed_of (packet, way_of decision) }
{
    match decision {
        Decision::Drop => packet.destroy(),
        decision => handed.put(packet, decision),
    }
}

/// Carries out a batch request, for whose entry there is room, and answers its errno. What leaves
/// is handed out, unless its verdict is to drop it. When memory runs out nothing has happened.
pub(super) fn batch(
    held: &mut Held,
    alloc: Global,
    asker: Asker,
    head: Option<Head>,
    mark: Option<u32>,
    priority: Option<u32>,
    handed: &mut Handed,
) -> Result<u16, NoMemory>
    requires replayed { IsReplayed held.old }
    requires no_offer { held.old.offer ≡ None }
    requires room { HasRoom held.old 1 }
    ensures replayed { IsReplayed held.new }
    ensures no_offer { held.new.offer ≡ None }
    ensures room { HasRoom held.new 0 }
    ensures entered { IfOk result (λ errno. HandsOut held.old held.new asker.queue
        (Ask asker.port asker.call (Batch asker.queue head mark priority)) errno
        handed.old.items handed.new.items) }
    ensures entries { OnErr result (held.new.entries.items ≡ held.old.entries.items) }
    ensures handed { OnErr result (handed.new.items ≡ handed.old.items) }
{
    match ruling(port_of(held, asker.queue), asker.port, head) {
        Err(errno) => {
            let refused = Request::Batch {
                queue: asker.queue,
                head,
                mark,
                priority,
            };
            note(held, answered(asker, refused, errno, 0));
            Ok(errno)
        }
        Ok(head) => share_out(held, alloc, asker, head, mark, priority, handed),
    }
}

/// Carries out a batch that isn't refused.
fn share_out(
    held: &mut Held,
    alloc: Global,
    asker: Asker,
    head: Head,
    mark: Option<u32>,
    priority: Option<u32>,
    handed: &mut Handed,
) -> Result<u16, NoMemory>
    requires replayed { IsReplayed held.old }
    requires no_offer { held.old.offer ≡ None }
    requires room { HasRoom held.old 1 }
    requires allowed { IsAllowed (state_of held.old.entries.items asker.queue) asker.port
        (Some head) head }
    ensures replayed { IsReplayed held.new }
    ensures no_offer { held.new.offer ≡ None }
    ensures room { HasRoom held.new 0 }
    ensures entered { IfOk result (λ errno. HandsOut held.old held.new asker.queue
        (Ask asker.port asker.call (Batch asker.queue (Some head) mark priority)) errno
        handed.old.items handed.new.items) }
    ensures entries { OnErr result (held.new.entries.items ≡ held.old.entries.items) }
    ensures handed { OnErr result (handed.new.items ≡ handed.old.items) }
{
    let taken = take_share(
        &mut held.queues,
        alloc,
        asker.queue,
        head,
        mark,
        priority,
        handed,
    )?;
    let errno = errno_of(taken);
    let request = Request::Batch {
        queue: asker.queue,
        head: Some(head),
        mark,
        priority,
    };
    append(held, answered(asker, request, errno, taken));
    Ok(errno)
}

/// The errno of a batch that isn't refused: one that takes nothing found nothing.
fn errno_of(taken: u32) -> u16
    ensures { result ≡ (if nat_eq taken 0 then enoent else 0) }
{
    if taken == 0 { ENOENT } else { 0 }
}

/// Takes a batch's share out of a queue: how many packets that is. They are handed out, or
/// destroyed where that was decided.
fn take_share(
    queues: &mut Queues,
    alloc: Global,
    number: u16,
    head: Head,
    mark: Option<u32>,
    priority: Option<u32>,
    handed: &mut Handed,
) -> Result<u32, NoMemory>
    requires known { IsVerdict head.verdict }
    requires bound { IsSomeAnd (queue_at queues.old number) (λ q. q.offer ≡ None) }
    ensures taken { IfOk result (λ count. Changes queues.old queues.new number (λ old new.
        (new.offer ≡ None)
        × (count ≡ length (batch_handed old.state head mark priority))
        × (handed.new.items ≡ handed.old.items
        ++ all_handed (ways_of (batch_handed old.state head mark priority)))
        × ((queue call : ℕ) →
        step (Some old.state) (Ask old.state.port call (Batch queue (Some head) mark priority))
        ≡ hands_out new.state (batch_handed old.state head mark priority)))) }
    ensures err { OnErr result (AreSame queues.old queues.new) }
    ensures handed { OnErr result (handed.new.items ≡ handed.old.items) }
{
    if head.verdict % (VERDICT_MASK + 1) != DROP {
        return bound::batch(queues, number, head, mark, priority, handed);
    }
    let mut dropped = Handed::new(alloc);
    let taken = bound::batch(queues, number, head, mark, priority, &mut dropped);
    while let Some((packet, _)) = dropped.take() {
        packet.destroy();
    }
    dropped.finish();
    taken
}
