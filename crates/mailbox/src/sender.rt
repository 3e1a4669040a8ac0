//! A sender's end of a mailbox.
use crate::fill::Chair;
use crate::line::LinePass;
use std::marker::Model;

/// The right to send to one mailbox, under a number. Contracts see this number, the letters that
/// it sent, in this order and with their times, and how often one came back; of number 0 also how
/// many senders were made. It is joined into the receiver at its end; one that is dropped is never
/// joined.
#[derive(Drop)]
pub struct Sender {
    pub(crate) pass: LinePass,
    pub(crate) chair: Chair,
    pub(crate) number: u32,
    pub(crate) made: u32,
}

impl Model for Sender {
    ghost use Rattle.mailbox.specs.Views.{SenderView};

    ghost Value = { SenderView };

    ghost use Rattle.mailbox.specs.Invariants.{sender_of, IsSender};

    ghost view = { λ s. sender_of s.pass s.chair };

    ghost invariant = { λ s. IsSender s.pass s.chair s.number s.made };
}
