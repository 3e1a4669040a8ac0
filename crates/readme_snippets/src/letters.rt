//! Letters of two senders, on their way to one receiver.

use mailbox::Mailbox;
use packet_entry::{Letter, NoMemory};
use std::alloc::Global;
use std::sync::Wait;

/// Two senders send a letter each: what the receiver receives of them.
pub fn two_letters<R: Wait>(
    rt: &R,
    alloc: Global,
    first: Letter,
    second: Letter,
) -> Result<[Option<Letter>; 2], NoMemory> {
    let (mailbox, mut one, mut receiver) = Mailbox::new(alloc, 2)?;
    let mut two = mailbox.split(&mut one)?;
    if mailbox.send(rt, &mut one, first).is_err() || mailbox.send(rt, &mut two, second).is_err() {
        return Ok([None, None]);
    }
    let letters = [
        mailbox.receive(rt, &mut receiver),
        mailbox.receive(rt, &mut receiver),
    ];
    mailbox.join(&mut receiver, two);
    mailbox.join(&mut receiver, one);
    Ok(letters)
}
