//! A mailbox: of one letter, and of four with two senders and a receiver in three threads.

ghost use Rattle.std.specs.Prelude.{◌≡◌};

use mailbox::{Mailbox, Receiver, Sender};
use packet_entry::{Bytes, Letter};
use std::alloc::Global;
use std::sync::Wait;
use std::test::Fail;
use std::thread::{Threads, join, yield_now};

/// A letter without bytes.
fn letter(alloc: Global, queue: u16, number: u32) -> Letter {
    Letter {
        queue,
        number,
        visit: 1,
        bytes: Bytes::new(alloc),
    }
}

#[test]
fn a_full_mailbox_gives_a_letter_back(rt: HostRuntime) -> Result<(), Fail> {
    let alloc = rt.alloc();
    let (mailbox, mut sender, mut receiver) = Mailbox::new(alloc, 1)?;
    assert!(rt; mailbox.send(&rt, &mut sender, letter(alloc, 0, 1)).is_ok());
    let back = mailbox.send(&rt, &mut sender, letter(alloc, 0, 2));
    assert_eq!(rt; back.err().map(|l| l.number), Some(2));
    let got = mailbox.receive(&rt, &mut receiver);
    assert_eq!(rt; got.map(|l| l.number), Some(1));
    assert!(rt; mailbox.receive(&rt, &mut receiver).is_none());
    let (largest, mut sender, _) = Mailbox::new(alloc, 65_536)?;
    assert!(rt; largest.send(&rt, &mut sender, letter(alloc, 0, 1)).is_ok());
    Ok(())
}

/// Sends a letter again until it is taken.
fn send_until_taken<R: Wait>(rt: &R, mailbox: &Mailbox, sender: &mut Sender, first: Letter)
    requires { sender.old.mailbox ≡ mailbox.now }
    ensures { sender.new.mailbox ≡ sender.old.mailbox }
{
    let mut letter = first;
    for _ in rt.forever() {
        match mailbox.send(rt, sender, letter) {
            Ok(()) => return,
            Err(back) => letter = back,
        }
        yield_now();
    }
    unreachable!()
}

/// Sends a thousand letters of a queue, numbered from 0.
fn send_all<R: Wait>(
    rt: &R,
    alloc: Global,
    mailbox: &Mailbox,
    mut sender: Sender,
    queue: u16,
) -> Sender
    requires { sender.mailbox ≡ mailbox.now }
    ensures { result.mailbox ≡ mailbox.now }
{
    for number in 0..1000 {
        send_until_taken(rt, mailbox, &mut sender, letter(alloc, queue, number));
    }
    sender
}

/// Two senders send so, of queue 0 and 1, each in a thread.
fn both_send<R: Threads + Wait + Sync>(
    rt: &R,
    alloc: Global,
    mailbox: &Mailbox,
    one: Sender,
    two: Sender,
) -> (Sender, Sender)
    requires { (one.mailbox ≡ mailbox.now) × (two.mailbox ≡ mailbox.now) }
    ensures { (result.0.mailbox ≡ mailbox.now) × (result.1.mailbox ≡ mailbox.now) }
{
    join(
        rt,
        move || send_all(rt, alloc, mailbox, one, 0),
        move || send_all(rt, alloc, mailbox, two, 1),
    )
}

/// Receives two thousand letters: how many of each queue came in their order.
fn receive_all<R: Wait>(rt: &R, mailbox: &Mailbox, mut receiver: Receiver) -> (Receiver, (u32, u32))
    requires { receiver.mailbox ≡ mailbox.now }
    ensures mailbox { result.0.mailbox ≡ mailbox.now }
{
    let mut came = 0u32;
    let (mut first, mut second) = (0u32, 0u32);
    for _ in rt.forever() {
        if came == 2000 {
            break;
        }
        match mailbox.receive(rt, &mut receiver) {
            Some(letter) => {
                came = came.wrapping_add(1);
                if letter.queue == 0 && letter.number == first {
                    first = first.wrapping_add(1);
                } else if letter.queue == 1 && letter.number == second {
                    second = second.wrapping_add(1);
                }
            }
            None => yield_now(),
        }
    }
    (receiver, (first, second))
}

#[test]
fn two_senders_and_a_receiver_in_threads(rt: HostRuntime) -> Result<(), Fail> {
    let (mailbox, mut one, receiver) = Mailbox::new(rt.alloc(), 4)?;
    let two = mailbox.split(&mut one)?;
    let (shared, handle, alloc) = (&mailbox, &rt, rt.alloc());
    let ((one, two), (mut receiver, came)) = join(
        handle,
        move || both_send(handle, alloc, shared, one, two),
        move || receive_all(handle, shared, receiver),
    );
    assert_eq!(rt; came, (1000, 1000));
    mailbox.join(&mut receiver, two);
    mailbox.join(&mut receiver, one);
    assert!(rt; mailbox.receive(&rt, &mut receiver).is_none());
    Ok(())
}
