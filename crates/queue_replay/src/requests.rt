//! Requests to a queue that stands as its history says.

ghost use Rattle.std.specs.Prelude.{◌≡◌, ◌↔◌, ℕ, Option, None, Some, length, drop, OnOk, IfOk};
ghost use Rattle.std.specs.Prelude.{option_map};
ghost use Rattle.nfqa_headers.specs.declared.verdict_header.Head.{Head};
ghost use Rattle.queue_core.specs.Decision.{Edit};
ghost use Rattle.queue_core.specs.Share.{share};
ghost use Rattle.queue_core.specs.State as state;
ghost use Rattle.queue_core.specs.State.{Bound};
ghost use Rattle.queue_core.specs.Step as queue_step;
ghost use Rattle.queue_core.specs.Lines.{IsConfigLine, IsAllowed};
ghost use Rattle.queue_core.specs.declared.event.Reply.{Reply};
ghost use Rattle.queue_core.specs.declared.event.Reply.TheVariants.{Answer};
ghost use Rattle.histories.specs.States.{waiting_at};

use crate::standing::Standing;
use crate::waiting_list::WaitingList;
use nfqa_msgs::{Head, Params, Request};
use packet_entry::NoMemory;
use queue_core::{ConfigLine, ENOENT, Reply, config_line, is_after, ruling};
use std::alloc::Global;

/// A port asks something of a queue number. When memory runs out, the state may be any.
pub(crate) fn ask(
    queue: &mut Option<Standing>,
    alloc: Global,
    port: u32,
    request: &Request,
) -> Result<Reply, NoMemory>
    ensures reply { IfOk result (λ reply.
        (queue_step.ask queue.old port request.now).reply ≡ reply) }
    ensures state { OnOk result ((queue_step.ask queue.old port request.now).state ≡ queue.new) }
{
    match request {
        Request::Config {
            command,
            params,
            maxlen,
            flags,
            mask,
            ..
        } => config(
            queue, alloc, port, *command, *params, *maxlen, *flags, *mask,
        ),
        Request::Verdict { head, .. } => Ok(verdict(queue, port, *head)),
        Request::Batch { head, .. } => Ok(batch(queue, port, *head)),
    }
}

/// A config request.
fn config(
    queue: &mut Option<Standing>,
    alloc: Global,
    port: u32,
    command: Option<u8>,
    params: Option<Params>,
    maximum: Option<u32>,
    flags: Option<u32>,
    mask: Option<u32>,
) -> Result<Reply, NoMemory>
    ensures reply { IfOk result (λ reply. (queue_step.config queue.old port (record {
      command = command;
      params = params;
      maximum = maximum;
      flags = flags;
      mask = mask;
    })).reply ≡ reply) }
    ensures state { OnOk result ((queue_step.config queue.old port (record {
      command = command;
      params = params;
      maximum = maximum;
      flags = flags;
      mask = mask;
    })).state ≡ queue.new) }
{
    match config_line(port_of(queue), port, command, flags, mask) {
        ConfigLine::Answered { errno } => Ok(Reply::Answer { errno, taken: 0 }),
        ConfigLine::Ends => Ok(Reply::Answer {
            errno: 0,
            taken: end(queue),
        }),
        ConfigLine::Binds => {
            let mut bound = Standing::bound_to(alloc, port)?;
            bound.configure(params, maximum, flags, mask);
            *queue = Some(bound);
            Ok(Reply::Answer { errno: 0, taken: 0 })
        }
        ConfigLine::SetsUp => {
            set_up(queue, params, maximum, flags, mask);
            Ok(Reply::Answer { errno: 0, taken: 0 })
        }
    }
}

/// The port that a queue is bound to, if it is.
pub fn port_of(queue: &Option<Standing>) -> Option<u32>
    ensures { option_map (λ (b : Bound). b.port) queue.now ≡ result }
{
    match queue {
        Some(bound) => Some(bound.port),
        None => None,
    }
}

/// The queue is absent from now on. Answers how many packets waited.
pub(crate) fn end(queue: &mut Option<Standing>) -> u32
    ensures count { result ≡ waiting_at queue.old }
    ensures absent { queue.new ≡ None }
{
    let count = match queue {
        Some(bound) => bound.waiting.len(),
        None => 0,
    };
    *queue = None;
    count
}

/// Sets up a queue, if it is bound.
fn set_up(
    queue: &mut Option<Standing>,
    params: Option<Params>,
    maximum: Option<u32>,
    flags: Option<u32>,
    mask: Option<u32>,
)
    ensures { queue.new ≡ option_map (state.configured params maximum flags mask) queue.old }
{
    if let Some(bound) = queue {
        bound.configure(params, maximum, flags, mask);
    }
}

/// A verdict request. What it changes of its packet is no matter here.
fn verdict(queue: &mut Option<Standing>, port: u32, head: Option<Head>) -> Reply
    ensures reply { (edit : Edit) → (queue_step.verdict queue.old port head edit).reply ≡ result }
    ensures state { (edit : Edit) → (queue_step.verdict queue.old port head edit).state
        ≡ queue.new }
{
    match ruling(port_of(queue), port, head) {
        Err(errno) => Reply::Answer { errno, taken: 0 },
        Ok(head) => {
            let Some(bound) = queue else { unreachable!() };
            match bound.waiting.take(head.id) {
                Some(_) => Reply::Answer { errno: 0, taken: 1 },
                None => Reply::Answer {
                    errno: ENOENT,
                    taken: 0,
                },
            }
        }
    }
}

/// A batch request. What it changes of its packets is no matter here.
fn batch(queue: &mut Option<Standing>, port: u32, head: Option<Head>) -> Reply
    ensures reply { (mark priority : Option ℕ) →
        (queue_step.batch queue.old port head mark priority).reply ≡ result }
    ensures state { (mark priority : Option ℕ) →
        (queue_step.batch queue.old port head mark priority).state ≡ queue.new }
{
    match ruling(port_of(queue), port, head) {
        Err(errno) => Reply::Answer { errno, taken: 0 },
        Ok(head) => {
            let Some(bound) = queue else { unreachable!() };
            match take_share(&mut bound.waiting, head.id) {
                0 => Reply::Answer {
                    errno: ENOENT,
                    taken: 0,
                },
                taken => Reply::Answer { errno: 0, taken },
            }
        }
    }
}

/// Takes out the share of a batch with this maximum: from the oldest on, up to the first whose id
/// is after the maximum. Answers how many packets that were.
fn take_share(waiting: &mut WaitingList, maximum: u32) -> u32
    ensures count { result ≡ length (share waiting.old maximum) }
    ensures others { waiting.new ≡ drop (length (share waiting.old maximum)) waiting.old }
{
    let count = waiting.len();
    for taken in 0..count {
        let Some(id) = waiting.oldest() else {
            unreachable!()
        };
        if is_after(id, maximum) {
            return taken;
        }
        waiting.take_oldest();
    }
    count
}
