//! What ports did.

use nfqa_msgs::Request;
use packet_entry::{Bytes, Sequence};

/// What a port sent.
#[derive(Debug, Drop)]
pub enum AskWords {
    /// The one spelling of a request, with the port and the number of the message.
    Plain {
        /// The request.
        request: Request,
    },
    /// Any other message.
    Raw {
        /// Its own bytes, without padding after them.
        bytes: Bytes,
    },
}

/// What a port did.
#[derive(Debug, Drop)]
pub enum Did {
    /// It received the notice of a packet's visit to a queue.
    Received {
        /// The queue's number.
        queue: u16,
        /// The packet's number, counted from 1.
        number: u32,
        /// Which of its visits this is, counted from 1.
        visit: u32,
    },
    /// It sent a message.
    Sent {
        /// The message's number among the port's messages, from 1 on, modulo 2^32.
        call: u32,
        /// What was sent.
        ask: AskWords,
        /// The errno of its acknowledgement, where there was one.
        answer: Option<u16>,
    },
    /// It closed, which is the last that it does.
    Closed,
}

/// What one port did, in order.
pub type Dids = Sequence<Did>;

/// What one port did.
#[derive(Debug, Drop)]
pub struct PortLog {
    /// The port.
    pub port: u32,
    /// What it did, in order.
    pub dids: Dids,
}
