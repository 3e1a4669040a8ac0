//! The queue: what it is, how it is set up, and what it tells.

ghost use Rattle.std.specs.Prelude.{◌≡◌, ℕ, [], length, Some, None, false};
ghost use Rattle.nfqa_msgs.specs.Numbers.{command_bind};
ghost use Rattle.nfqa_msgs.specs.declared.request.Request.TheVariants.{Config};
ghost use Rattle.queue_core.specs.declared.event.Event.TheVariants.{Ask};
ghost use Rattle.queue_core.specs.declared.event.Reply.TheVariants.{Answer};

mod arrivals;
mod flushes;
mod verdicts;

use crate::settings::Settings;
use crate::waiting::Waiting;
use nfqa_msgs::Params;
use std::alloc::Global;
use std::marker::Model;

/// A queue that is bound to a port. It is no `Drop`: it ends by `finish`, once nothing waits.
pub struct Queue {
    port: u32,
    settings: Settings,
    last: u32,
    dropped: u32,
    user_dropped: u32,
    /// What waits and, last of it, what was begun and isn't settled.
    waiting: Waiting,
    /// The id of what was begun and isn't settled.
    offer: Option<u32>,
}

impl Model for Queue {
    ghost use Rattle.std.specs.Prelude.{IfSome};
    ghost use Rattle.queue_core.specs.Linked.{IsLast, offer_in, without_offer};
    ghost use Rattle.queue_core.specs.State.{bound_with};
    ghost use Rattle.queue_core.specs.WithOffer.{WithOffer, IsQueue};

    ghost Value = { WithOffer };

    ghost view = { λ q. record {
      state = bound_with q.port q.settings q.last q.dropped q.user_dropped
          (without_offer q.offer q.waiting);
      offer = offer_in q.offer q.waiting;
    } };

    ghost invariant = { λ q.
        IsQueue (record {
          state = bound_with q.port q.settings q.last q.dropped q.user_dropped
              (without_offer q.offer q.waiting);
          offer = offer_in q.offer q.waiting;
        })
        × IfSome q.offer (IsLast q.waiting) };
}

impl Queue {
    ghost use Rattle.queue_core.specs.State.{bound_to, configured};
    ghost use Rattle.queue_core.specs.Step.{are_flags_refused, step, with_last};

    /// The new queue of a port: mode `NONE`, range 65,531, maximum 1024, nothing else set, nothing
    /// waiting. Takes no memory.
    pub fn bind(alloc: Global, port: u32) -> Queue
        ensures state { result.state ≡ bound_to port }
        ensures no_offer { result.offer ≡ None }
        // This is the step of a request to bind an absent queue.
        ensures step { (queue call : ℕ) →
            step None (Ask port call (Config queue (Some command_bind) None None None None))
            ≡ record { state = Some result.state; reply = Answer 0 0; left = [] } }
    {
        Queue {
            port,
            settings: Settings::new(),
            last: 0,
            dropped: 0,
            user_dropped: 0,
            waiting: Waiting::new(alloc),
            offer: None,
        }
    }

    /// Applies what a config request that isn't refused asks for: params, maximum and flags, in
    /// this order. Takes no memory.
    pub fn configure(
        &mut self,
        params: Option<Params>,
        maxlen: Option<u32>,
        flags: Option<u32>,
        mask: Option<u32>,
    )
        requires allowed { are_flags_refused flags mask ≡ false }
        requires no_offer { self.old.offer ≡ None }
        ensures state { self.new.state ≡ configured params maxlen flags mask self.old.state }
        ensures no_offer { self.new.offer ≡ None }
        // This is the step of its port's request without a command.
        ensures step { (queue call : ℕ) →
            step (Some self.old.state)
            (Ask self.old.state.port call (Config queue None params maxlen flags mask))
            ≡ record { state = Some self.new.state; reply = Answer 0 0; left = [] } }
    {
        self.settings.configure(params, maxlen, flags, mask);
    }

    /// Sets the id that was used last. No message asks for this: it serves tests of what comes
    /// after the largest id. Takes no memory.
    pub fn skip_to(&mut self, last: u32)
        requires no_offer { self.old.offer ≡ None }
        ensures state { self.new.state ≡ with_last self.old.state last }
        ensures no_offer { self.new.offer ≡ None }
    {
        self.last = last;
    }

    /// Spends the queue. Takes no memory.
    pub fn finish(self)
        requires empty { self.state.waiting ≡ [] }
        requires no_offer { self.offer ≡ None }
    {
        let Queue {
            port: _,
            settings: _,
            last: _,
            dropped: _,
            user_dropped: _,
            waiting,
            offer: _,
        } = self;
        waiting.finish();
    }

    /// The port that the queue is bound to.
    pub fn port(&self) -> u32
        ensures { result ≡ self.now.state.port }
    {
        self.port
    }

    /// The copy mode.
    pub fn mode(&self) -> u8
        ensures { result ≡ self.now.state.mode }
    {
        self.settings.mode
    }

    /// The copy range, in bytes.
    pub fn range(&self) -> u32
        ensures { result ≡ self.now.state.range }
    {
        self.settings.range
    }

    /// How many packets may wait.
    pub fn maximum(&self) -> u32
        ensures { result ≡ self.now.state.maximum }
    {
        self.settings.maximum
    }

    /// The bits of [`QueueFlags`](nfqa_msgs::QueueFlags) that are set: `FAIL_OPEN` has an effect,
    /// every other is only kept.
    pub fn flags(&self) -> u32
        ensures { result ≡ self.now.state.flags }
    {
        self.settings.flags
    }

    /// The id that was used last; 0 before the first.
    pub fn last(&self) -> u32
        ensures { result ≡ self.now.state.last }
    {
        self.last
    }

    /// How many packets were destroyed because too many waited; it stops at 4,294,967,295.
    pub fn dropped(&self) -> u32
        ensures { result ≡ self.now.state.dropped }
    {
        self.dropped
    }

    /// How many packets were destroyed because the port's mailbox was full; it stops at
    /// 4,294,967,295.
    pub fn user_dropped(&self) -> u32
        ensures { result ≡ self.now.state.user_dropped }
    {
        self.user_dropped
    }

    /// How many packets wait.
    pub fn waiting(&self) -> u32
        ensures { result ≡ length self.now.state.waiting }
    {
        let kept = self.waiting.len() as u32;
        match self.offer {
            None => kept,
            Some(_) => kept - 1,
        }
    }
}
