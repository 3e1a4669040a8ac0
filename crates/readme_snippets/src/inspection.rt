//! A first program of one's own: a queue, and who answers for it.

ghost use Rattle.std.specs.Prelude.{◌≡◌, ◌≤◌, None};

use nfqa_msgs::{Head, PACKET, Params};
use packet_entry::{IPV4, Packet};
use queue_core::{ACCEPT, Begun, NoRoom, Queue, Settled};
use std::alloc::Global;

/// A packet arrives at queue 5: the id under which it waits.
fn arrive(alloc: Global, queue: &mut Queue, packet: Packet) -> Option<u32>
    requires { queue.old.offer ≡ None }
    ensures { queue.new.offer ≡ None }
{
    match queue.begin(alloc, 5, packet) {
        Ok(Begun::Offered { port: _, letter: _ }) => match queue.settle(true) {
            Settled::Waiting { id } => return Some(id),
            Settled::Back { outcome: _, packet } => packet.destroy(),
        },
        Ok(Begun::Back { outcome: _, packet }) => packet.destroy(),
        Err(NoRoom { packet }) => packet.destroy(),
    }
    None
}

/// So many packets arrive, and port 7 accepts each: how many it let go on.
pub fn accept_all(alloc: Global, count: u32) -> u32
    ensures { result ≤ count }
{
    let mut queue = Queue::bind(alloc, 7);
    let params = Params {
        range: 0,
        mode: PACKET,
    };
    queue.configure(Some(params), None, None, None);
    let mut accepted = 0;
    for number in 0..count {
        let Ok(packet) = Packet::new(alloc, number + 1, 0, 0, IPV4, &[], &[0x45; 20]) else {
            break;
        };
        if let Some(id) = arrive(alloc, &mut queue, packet) {
            let accept = Head {
                verdict: ACCEPT,
                id,
            };
            if let Some((packet, _)) = queue.verdict(accept, None, None, None) {
                packet.release();
                accepted += 1;
            }
        }
    }
    queue.flush();
    queue.finish();
    accepted
}
