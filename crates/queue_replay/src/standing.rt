//! A bound queue as it stands after some entries of its history.

ghost use Rattle.std.specs.Prelude.{◌≡◌, ◌≤◌, IfOk};
ghost use Rattle.nfqa_msgs.specs.Numbers.{longest_range};
ghost use Rattle.queue_core.specs.State as state;

use crate::waiting_list::WaitingList;
use nfqa_msgs::Params;
use packet_entry::NoMemory;
use queue_core::Settings;
use std::alloc::Global;
use std::marker::Model;

/// A bound queue. It has what the state of a [`Queue`](queue_core::Queue) has, with cards in place
/// of packets: those of a journal may be no packet's.
#[derive(Drop)]
pub struct Standing {
    pub(crate) port: u32,
    pub(crate) settings: Settings,
    pub(crate) last: u32,
    pub(crate) dropped: u32,
    pub(crate) user_dropped: u32,
    pub(crate) waiting: WaitingList,
}

impl Model for Standing {
    ghost use Rattle.std.specs.Prelude.{◌≤◌};
    ghost use Rattle.nfqa_msgs.specs.Numbers.{longest_range};
    ghost use Rattle.queue_core.specs.State.{Bound, bound_with};

    ghost Value = { Bound };

    ghost view = { λ q.
        bound_with q.port q.settings q.last q.dropped q.user_dropped q.waiting };

    // no range is longer than what one attribute holds
    ghost invariant = { λ q. q.settings.range ≤ longest_range };
}

impl Standing {
    /// A queue as a port binds it.
    pub(crate) fn bound_to(alloc: Global, port: u32) -> Result<Standing, NoMemory>
        ensures { IfOk result (λ q. q ≡ state.bound_to port) }
    {
        Ok(Standing {
            port,
            settings: Settings::new(),
            last: 0,
            dropped: 0,
            user_dropped: 0,
            waiting: WaitingList::new(alloc)?,
        })
    }

    /// How much of a packet its notices tell: the copy mode.
    pub fn mode(&self) -> u8
        ensures { result ≡ self.now.mode }
    {
        self.settings.mode
    }

    /// How many bytes of a packet its notices tell, under the mode `PACKET`.
    pub fn range(&self) -> u32
        ensures value { result ≡ self.now.range }
        ensures fits { result ≤ longest_range }
    {
        self.settings.range
    }

    /// Applies what a config request asks for: params, maximum and flags, in this order.
    pub(crate) fn configure(
        &mut self,
        params: Option<Params>,
        maximum: Option<u32>,
        flags: Option<u32>,
        mask: Option<u32>,
    )
        ensures { self.new ≡ state.configured params maximum flags mask self.old }
    {
        self.settings.configure(params, maximum, flags, mask);
    }
}
