//! Running a queue.

use nfqa_msgs::{Head, PACKET, Params};
use packet_entry::Packet;
use queue_core::{ACCEPT, Begun, NoRoom, Queue, Settled};
use std::alloc::Global;

/// A packet arrives at queue 5, which port 7 bound, waits, and is accepted. Whether it was.
pub fn accept_one(alloc: Global, packet: Packet) -> bool {
    let mut queue = Queue::bind(alloc, 7);
    let params = Params {
        range: 0,
        mode: PACKET,
    };
    queue.configure(Some(params), None, None, None);
    let mut accepted = false;
    match queue.begin(alloc, 5, packet) {
        Ok(Begun::Offered { port: _, letter: _ }) => match queue.settle(true) {
            Settled::Waiting { id } => {
                let accept = Head {
                    verdict: ACCEPT,
                    id,
                };
                if let Some((packet, _)) = queue.verdict(accept, None, None, None) {
                    packet.release();
                    accepted = true;
                }
            }
            Settled::Back { outcome: _, packet } => packet.destroy(),
        },
        Ok(Begun::Back { outcome: _, packet }) => packet.destroy(),
        Err(NoRoom { packet }) => packet.destroy(),
    }
    queue.finish();
    accepted
}
