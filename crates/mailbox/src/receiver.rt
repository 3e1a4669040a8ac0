//! The receiver's end of a mailbox.
use crate::fill::Chair;
use crate::line::LinePass;
use std::marker::Model;

/// The right to receive from one mailbox. Contracts see the letters that it received, each with its
/// time and the number of its sender, how often it found the mailbox empty, and the senders that
/// were joined into it, each with the letters that it had sent.
#[derive(Drop)]
pub struct Receiver {
    pub(crate) pass: LinePass,
    pub(crate) chair: Chair,
}

impl Model for Receiver {
    ghost use Rattle.mailbox.specs.Views.{ReceiverView};

    ghost Value = { ReceiverView };

    ghost use Rattle.mailbox.specs.Invariants.{receiver_of, IsReceiver};

    ghost view = { λ r. receiver_of r.pass r.chair };

    ghost invariant = { λ r. IsReceiver r.pass r.chair };
}
