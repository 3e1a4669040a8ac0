//! What happens at a queue, and what it answers.

use crate::Outcome;
use nfqa_msgs::Request;
use packet_entry::Card;

/// What happens at a queue's number.
#[derive(Debug, Drop)]
pub enum Event {
    /// A packet arrives.
    Arrive {
        /// The packet, with the visit and the table of this arrival.
        card: Card,
        /// Whether the rule or the verdict that sent it there lets it go on where the queue is
        /// absent.
        bypass: bool,
        /// Whether the port's mailbox took the notice; true where none was offered.
        room: bool,
    },
    /// A port asks something of the queue.
    Ask {
        /// The port.
        port: u32,
        /// The message's number among the port's messages, from 1 on, modulo 2^32.
        call: u32,
        /// What it asks.
        request: Request,
    },
    /// The port of the queue is closed.
    PortClosed {
        /// The port.
        port: u32,
    },
    /// A device goes down.
    DeviceDown {
        /// The device's index.
        device: u32,
    },
}

/// What a queue answers.
#[derive(Clone, Copy, Debug, PartialEq, Eq)]
pub enum Reply {
    /// To an arrival.
    Arrived {
        /// What became of the packet.
        outcome: Outcome,
    },
    /// To a request.
    Answer {
        /// 0, or the error's number.
        errno: u16,
        /// How many packets left.
        taken: u32,
    },
    /// To a closed port, or to a device that goes down.
    Flushed {
        /// How many packets left.
        taken: u32,
    },
}
