//! A letter with its time, and what the ends of a mailbox know. But for `Mail` and `Post`, no value
//! of these types is made: they are what contracts see of an end.
use packet_entry::Letter;
use std::collections::LinkedList;

/// A letter and its time.
#[derive(Drop)]
pub struct Mail {
    pub letter: Letter,
    /// The time, as a logical clock gives it.
    pub time: u64,
}

/// A letter in the queue with its time, and the number of the sender that put it there.
#[derive(Drop)]
pub(crate) struct Post {
    pub from: u32,
    pub letter: Letter,
    pub time: u64,
}

/// What an end may do, and what it knows of the mailbox's senders.
pub(crate) struct Role {
    pub sends: bool,
    pub gets: bool,
    /// The number of a sender.
    pub number: u64,
    /// How many senders were made: known to the sender of number 0, and to the receiver once that
    /// sender was joined. Else 0.
    pub made: u64,
    /// The numbers of the senders that were joined into the receiver, in this order.
    pub joined: LinkedList<u64>,
}

/// What an end knows of the queue.
pub(crate) struct Line {
    pub role: Role,
    /// The letters that it put in, in this order, each with its time.
    pub put: LinkedList<Mail>,
    /// The letters that it took out, in this order.
    pub got: LinkedList<Post>,
    /// The senders that were joined into it, each with the letters that it had put in.
    pub known: LinkedList<(u64, LinkedList<Mail>)>,
}

/// What an end knows of the word that counts letters.
pub(crate) struct Fill {
    pub role: Role,
    pub capacity: u64,
    /// How often it claimed room, or those did that were joined into it.
    pub claims: u64,
    /// How often it found the mailbox full, or those did that were joined into it.
    pub full: u64,
    /// How often it freed room.
    pub freed: u64,
    /// How often it found the mailbox empty.
    pub empty: u64,
}
