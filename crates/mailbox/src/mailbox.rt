//! A mailbox: a queue of letters, and a word that counts them. A letter is counted from the step at
//! which `send` claims room for it to the step at which `receive` frees this room.
ghost use Rattle.std.specs.Prelude.{◌≡◌};

use crate::fill::{self, Chair, Claim, FILL, Free, Gauge, Learn, LookForLetters, LookForRoom};
use crate::line::{self, Gets, LinePass, Puts, Queue, Tells};
use crate::receiver::Receiver;
use crate::sender::Sender;
use crate::view::{Mail, Post};
use packet_entry::{Letter, NoMemory};
use std::alloc::Global;
use std::marker::Model;
use std::sync::Wait;
use std::thread::yield_now;

/// Letters on their way from senders to one receiver, as many at a time as its capacity. Senders
/// and the receiver share it.
#[derive(Drop)]
pub struct Mailbox {
    queue: Queue,
    gauge: Gauge,
    capacity: u64,
}

impl Model for Mailbox {
    ghost use Rattle.crossbeam_queue.specs.Passes.{ruled_capacity};
    ghost use Rattle.mailbox.specs.Views.{MailboxView};

    ghost Value = { MailboxView };

    ghost use Rattle.mailbox.specs.Invariants.{mailbox_of, queue_id, IsMailbox};

    ghost view = { λ m. mailbox_of (queue_id m.queue) m.gauge.shared.table_id m.capacity };

    ghost invariant = { λ m. IsMailbox (ruled_capacity m.queue) m.gauge.shared.table_id
        m.gauge.shared.key m.capacity };
}

/// What one turn at receiving came to.
enum Turn {
    Got(Mail),
    /// The mailbox was found empty.
    Empty,
    /// Room was claimed for a letter, but none can be taken yet.
    Again,
}

impl Mailbox {
    ghost use Rattle.std.specs.Prelude.{◌≡◌, ◌<◌, ◌≤◌, ℕ, true, false, IfOk, IfNone, OnOk, OnErr};
    ghost use Rattle.std.specs.Prelude.{MatchOption, MatchResult, IsOk, [], length};
    ghost use Rattle.crossbeam_queue.specs.Passes.{view, IsPassOf, IsSamePass};
    ghost use Rattle.mailbox.specs.Numbers.{least_capacity, most_capacity, most_senders};
    ghost use Rattle.mailbox.specs.Views.{opening_sender, opening_receiver, letters_in};
    ghost use Rattle.mailbox.specs.Views.{sender_with, sender_back, parent_sender, child_sender};
    ghost use Rattle.mailbox.specs.Views.{receiver_with, receiver_empty, receiver_joined};
    ghost use Rattle.mailbox.specs.Views.{HasAllSenders, ArePrefixes, AreOfJoined, AreWhole};
    ghost use Rattle.mailbox.specs.Views.{numbers, AreMade, NoneBeyond, AreAccountedFor};
    ghost use Rattle.mailbox.specs.Views.{AreTimedPrefixes, mail_of};
    ghost use Rattle.mailbox.specs.Roles.{AreDistinct};
    ghost use Rattle.mailbox.specs.Fills.{claiming, full_look, freeing};
    ghost use Rattle.mailbox.specs.Lines.{put_line};
    ghost use Rattle.mailbox.specs.declared.mailbox.Turn.TheVariants.{Got, Empty, Again};
    ghost use Rattle.mailbox.specs.Invariants.{IsChairOf};
    ghost use Rattle.mailbox.specs.Turns.{TurnTells};

    /// A mailbox of this capacity, its first sender, which has number 0, and its receiver.
    pub fn new(alloc: Global, capacity: u32) -> Result<(Mailbox, Sender, Receiver), NoMemory>
        requires { (least_capacity ≤ capacity) × (capacity ≤ most_capacity) }
        ensures capacity { IfOk result (λ made. made.0.capacity ≡ capacity) }
        ensures sender { IfOk result (λ made. made.1 ≡ opening_sender made.0) }
        ensures receiver { IfOk result (λ made. made.2 ≡ opening_receiver made.0) }
    {
        let capacity = capacity as u64;
        let (queue, mut pass) = Queue::ruled(alloc, capacity as usize)?;
        let (gauge, mut chair) = Gauge::of_words(alloc, &[0], &capacity)?;
        let reading = queue.another::<line::CutReceiver>(&mut pass);
        let taking = gauge.shared.split_seat::<fill::CutReceiver>(&mut chair);
        let mailbox = Mailbox {
            queue,
            gauge,
            capacity,
        };
        let sender = Sender {
            pass,
            chair,
            number: 0,
            made: 1,
        };
        let receiver = Receiver {
            pass: reading,
            chair: taking,
        };
        Ok((mailbox, sender, receiver))
    }

    /// Makes another sender, by the one of number 0. It has the next number. It takes no memory.
    pub fn split(&self, sender: &mut Sender) -> Result<Sender, NoMemory>
        requires mailbox { sender.old.mailbox ≡ self.now }
        requires first { sender.old.number ≡ 0 }
        requires most { sender.old.made < most_senders }
        ensures old { OnOk result (sender.new ≡ parent_sender sender.old) }
        ensures made { IfOk result (λ made. made ≡ child_sender sender.old) }
        ensures memory { OnErr result (sender.new ≡ sender.old) }
        ensures succeeds { IsOk result }
    {
        let number = sender.made;
        let pass = self.queue.another::<line::OneMore>(&mut sender.pass);
        let chair = self
            .gauge
            .shared
            .split_seat::<fill::OneMore>(&mut sender.chair);
        sender.made = number + 1;
        Ok(Sender {
            pass,
            chair,
            number,
            made: 0,
        })
    }

    /// Sends a letter at time 0, as `send_mail` does.
    pub fn send<R: Wait>(&self, rt: &R, sender: &mut Sender, letter: Letter) -> Result<(), Letter>
        requires mailbox { sender.old.mailbox ≡ self.now }
        ensures { MatchResult result
            (λ _. sender.new ≡ sender_with sender.old (record { letter = letter; time = 0 }))
            (λ back. (back ≡ letter) × (sender.new ≡ sender_back sender.old)) }
    {
        match self.send_mail(rt, sender, Mail { letter, time: 0 }) {
            Ok(()) => Ok(()),
            Err(back) => Err(back.letter),
        }
    }

    /// Sends a letter with its time. It comes back exactly where a look of this call found that the
    /// mailbox held its capacity; the sender counts these looks. What it promises holds once it
    /// returns; that it returns, no clause says. It takes no memory.
    pub fn send_mail<R: Wait>(&self, rt: &R, sender: &mut Sender, mail: Mail) -> Result<(), Mail>
        requires mailbox { sender.old.mailbox ≡ self.now }
        ensures { MatchResult result (λ _. sender.new ≡ sender_with sender.old mail)
            (λ back. (back ≡ mail) × (sender.new ≡ sender_back sender.old)) }
    {
        if !self.claim(rt, &mut sender.chair) {
            return Err(mail);
        }
        let from = sender.number;
        let Mail { letter, time } = mail;
        self.put(rt, &mut sender.pass, Post { from, letter, time });
        Ok(())
    }

    /// Receives a letter, whatever its time, as `receive_mail` does.
    pub fn receive<R: Wait>(&self, rt: &R, receiver: &mut Receiver) -> Option<Letter>
        requires mailbox { receiver.old.mailbox ≡ self.now }
        ensures received { MatchOption result (receiver.new ≡ receiver_empty receiver.old)
            (λ letter. (from time : ℕ) × (receiver.new
            ≡ receiver_with receiver.old from (record { letter = letter; time = time }))) }
        ensures prefix { ArePrefixes receiver.new }
        ensures in_time { AreTimedPrefixes receiver.new }
        ensures senders { HasAllSenders receiver.new → AreOfJoined receiver.new }
        ensures whole { HasAllSenders receiver.new
            → letters_in receiver.new.joined ≡ length receiver.new.received
            → AreWhole receiver.new }
        ensures beyond { NoneBeyond receiver.new }
        ensures inside { HasAllSenders receiver.new → AreAccountedFor receiver.new }
        ensures empty { IfNone result (HasAllSenders receiver.new → AreWhole receiver.new) }
    {
        match self.receive_mail(rt, receiver) {
            Some(mail) => Some(mail.letter),
            None => None,
        }
    }

    /// Receives a letter with its time; those of each sender come in the order in which it sent
    /// them. None comes exactly where a look of this call found that the mailbox held nothing; the
    /// receiver counts these looks. What it promises holds once it returns; that it returns, no
    /// clause says. It takes no memory.
    pub fn receive_mail<R: Wait>(&self, rt: &R, receiver: &mut Receiver) -> Option<Mail>
        requires mailbox { receiver.old.mailbox ≡ self.now }
        ensures received { MatchOption result (receiver.new ≡ receiver_empty receiver.old)
            (λ mail. (from : ℕ) × (receiver.new ≡ receiver_with receiver.old from mail)) }
        ensures prefix { ArePrefixes receiver.new }
        ensures in_time { AreTimedPrefixes receiver.new }
        ensures senders { HasAllSenders receiver.new → AreOfJoined receiver.new }
        ensures whole { HasAllSenders receiver.new
            → letters_in receiver.new.joined ≡ length receiver.new.received
            → AreWhole receiver.new }
        ensures beyond { NoneBeyond receiver.new }
        ensures inside { HasAllSenders receiver.new → AreAccountedFor receiver.new }
        ensures empty { IfNone result (HasAllSenders receiver.new → AreWhole receiver.new) }
    {
        for _ in rt.forever() {
            match self.turn(rt, receiver) {
                Turn::Got(mail) => return Some(mail),
                Turn::Empty => return None,
                Turn::Again => yield_now(),
            }
        }
        unreachable!()
    }

    /// Joins a sender into the receiver, which ends it. Each number is joined once at most. The
    /// letters received of each sender that was joined are a prefix of those that it sent, each
    /// with its time. Once number 0 is joined it is known how many were made, and no letter is of
    /// any further number. Once all senders are joined, the letters received and those still inside
    /// are those that they sent, nothing is inside where as many were received as were sent, and
    /// where one ever came back, at least `capacity` were sent. It takes no memory.
    pub fn join(&self, receiver: &mut Receiver, sender: Sender)
        requires mailbox { (receiver.old.mailbox ≡ self.now) × (sender.mailbox ≡ self.now) }
        ensures joined { receiver.new ≡ receiver_joined receiver.old sender }
        ensures prefix { ArePrefixes receiver.new }
        ensures in_time { AreTimedPrefixes receiver.new }
        ensures senders { HasAllSenders receiver.new → AreOfJoined receiver.new }
        ensures whole { HasAllSenders receiver.new
            → letters_in receiver.new.joined ≡ length receiver.new.received
            → AreWhole receiver.new }
        ensures full { HasAllSenders receiver.new → 0 < receiver.new.full
            → self.now.capacity ≤ letters_in receiver.new.joined }
        ensures once { AreDistinct (numbers receiver.new.joined) }
        ensures made { AreMade receiver.new.made (numbers receiver.new.joined) }
        ensures beyond { NoneBeyond receiver.new }
        ensures inside { HasAllSenders receiver.new → AreAccountedFor receiver.new }
    {
        let Sender {
            pass,
            chair,
            number: _,
            made: _,
        } = sender;
        self.gauge
            .shared
            .join_seat::<fill::TakeIn>(&mut receiver.chair, chair);
        self.queue.absorb::<line::TakeIn>(&mut receiver.pass, pass);
        self.queue.learn_as::<Tells>(&mut receiver.pass);
        self.gauge.shared.load::<Learn>(&mut receiver.chair, FILL);
    }

    /// Claims room for a letter; `false` where a look found none.
    fn claim<R: Wait>(&self, rt: &R, chair: &mut Chair) -> bool
        requires table { IsChairOf self.now chair.old }
        requires sends { chair.old.me.0.role.sends ≡ true }
        ensures table { (chair.new.table_id ≡ chair.old.table_id) × (chair.new.id ≡ chair.old.id) }
        ensures claimed { result ≡ true → chair.new.me ≡ (claiming chair.old.me.0, chair.old.me.1) }
        ensures full { result ≡ false → chair.new.me ≡ (full_look chair.old.me.0, chair.old.me.1) }
    {
        for _ in rt.forever() {
            let held = self.gauge.shared.load::<LookForRoom>(chair, FILL);
            if held == self.capacity {
                return false;
            }
            let found = self
                .gauge
                .shared
                .compare_exchange::<Claim>(chair, FILL, held, held + 1);
            if found == held {
                return true;
            }
        }
        unreachable!()
    }

    /// Puts a letter into the queue, for which room was claimed. Another end may be in the way.
    fn put<R: Wait>(&self, rt: &R, pass: &mut LinePass, post: Post)
        requires queue { (pass.old.table_id ≡ self.now.queue) × (pass.old.me.1 ≡ []) }
        requires sends { (view pass.old).role.sends ≡ true }
        requires gets { (view pass.old).role.gets ≡ false }
        requires from { post.from ≡ (view pass.old).role.number }
        ensures queue { IsSamePass pass.old pass.new }
        ensures put { view pass.new ≡ put_line (view pass.old) (mail_of post) }
    {
        let mut post = post;
        for _ in rt.forever() {
            match self.queue.try_push_as::<Puts>(pass, post) {
                Ok(()) => return,
                Err(back) => post = back,
            }
            yield_now();
        }
        unreachable!()
    }

    /// One turn at receiving: a look, and where it found a letter, one attempt to take it.
    fn turn<R: Wait>(&self, rt: &R, receiver: &mut Receiver) -> Turn
        requires mailbox { receiver.old.mailbox ≡ self.now }
        ensures { TurnTells receiver.old receiver.new result }
    {
        match self.queue.try_pop_as::<Gets>(&mut receiver.pass) {
            Some(
                Post {
                    from: _,
                    letter,
                    time,
                },
            ) => {
                self.free(rt, &mut receiver.chair);
                Turn::Got(Mail { letter, time })
            }
            None => self.look(receiver),
        }
    }

    /// A look for letters.
    fn look(&self, receiver: &mut Receiver) -> Turn
        requires mailbox { receiver.old.mailbox ≡ self.now }
        ensures { TurnTells receiver.old receiver.new result }
    {
        if self
            .gauge
            .shared
            .load::<LookForLetters>(&mut receiver.chair, FILL)
            == 0
        {
            return Turn::Empty;
        }
        Turn::Again
    }

    /// Frees the room of a letter that was taken.
    fn free<R: Wait>(&self, rt: &R, chair: &mut Chair)
        requires table { IsChairOf self.now chair.old }
        requires gets { chair.old.me.0.role.gets ≡ true }
        ensures table { (chair.new.table_id ≡ chair.old.table_id) × (chair.new.id ≡ chair.old.id) }
        ensures freed { chair.new.me ≡ (freeing chair.old.me.0, chair.old.me.1) }
    {
        let mut held = 1;
        for _ in rt.forever() {
            let found = self
                .gauge
                .shared
                .compare_exchange::<Free>(chair, FILL, held, held - 1);
            if found == held {
                return;
            }
            held = if found == 0 { 1 } else { found };
        }
        unreachable!()
    }
}
