//! A queue that ends while a packet waits.

use nfqa_msgs::{PACKET, Params};
use packet_entry::Packet;
use queue_core::{Begun, NoRoom, Queue, Settled};
use std::alloc::Global;

/// A packet arrives at queue 5, which port 7 bound, and nobody answers. How many packets waited.
pub fn wait_in_vain(alloc: Global, packet: Packet) -> u32 {
    let mut queue = Queue::bind(alloc, 7);
    let params = Params {
        range: 0,
        mode: PACKET,
    };
    queue.configure(Some(params), None, None, None);
    match queue.begin(alloc, 5, packet) {
        Ok(Begun::Offered { port: _, letter: _ }) => match queue.settle(true) {
            Settled::Waiting { id: _ } => {}
            Settled::Back { outcome: _, packet } => packet.destroy(),
        },
        Ok(Begun::Back { outcome: _, packet }) => packet.destroy(),
        Err(NoRoom { packet }) => packet.destroy(),
    }
    let waited = queue.flush();
    queue.finish();
    waited
}
