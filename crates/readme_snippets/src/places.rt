//! A place of queues, and the history of what happens there.

ghost use Rattle.std.specs.Prelude.{◌≡◌, ◌≤◌, None};
ghost use Rattle.histories.specs.Happenings.{payload_of};
ghost use Rattle.histories.specs.History.{AreLegal};

use histories::Entries;
use nfqa_msgs::{BIND, Head, PACKET, Params, Request};
use packet_entry::Packet;
use place_history::Place;
use queue_core::{ACCEPT, Begun, Handed, NoRoom, Settled};
use std::alloc::Global;

/// What binds queue 5, so that notices have whole packets.
fn bind() -> Request
    ensures { payload_of result ≡ None }
{
    Request::Config {
        queue: 5,
        command: Some(BIND),
        params: Some(Params {
            range: 0,
            mode: PACKET,
        }),
        maxlen: None,
        flags: None,
        mask: None,
    }
}

/// What accepts the packet that waits in queue 5 under this id.
fn accept(id: u32) -> Request
    ensures { payload_of result ≡ None }
{
    Request::Verdict {
        queue: 5,
        head: Some(Head {
            verdict: ACCEPT,
            id,
        }),
        mark: None,
        payload: None,
        priority: None,
    }
}

/// A packet arrives at queue 5, which port 7 bound, and is accepted: it is handed out. All that
/// happened.
pub fn accept_at_place(alloc: Global, packet: Packet, handed: &mut Handed) -> Entries
    requires { 1 ≤ packet.visit }
    ensures { AreLegal result }
{
    let mut place = Place::new(alloc, 0, 1);
    let _ = place.ask(alloc, 7, 1, bind(), handed);
    match place.begin(alloc, 5, false, packet) {
        Ok(Begun::Offered { port: _, letter: _ }) => match place.settle(true) {
            Settled::Waiting { id } => {
                let _ = place.ask(alloc, 7, 2, accept(id), handed);
            }
            Settled::Back { outcome: _, packet } => packet.destroy(),
        },
        Ok(Begun::Back { outcome: _, packet }) => packet.destroy(),
        Err(NoRoom { packet }) => packet.destroy(),
    }
    place.leave_waiting();
    place.into_entries()
}
