//! The queue of a mailbox, what its ends know of it, and what each kind of step tells.
ghost use Rattle.std.specs.Prelude.{◌≡◌};
ghost use Rattle.mailbox.specs.Lines.{InOrder, first_line, sending_line, receiving_line};
ghost use Rattle.mailbox.specs.Lines.{parent_line, child_line, joined_line, spent_line};
ghost use Rattle.mailbox.specs.Lines.{put_line, got_line, IsTold};
ghost use Rattle.mailbox.specs.Views.{mail_of};

use crate::view::{Line, Post};
use crossbeam_queue::protocol::{Join, Lesson, Outcome, Protocol, Split};
use crossbeam_queue::{Pass, RuledArrayQueue};

/// What is taken out of each sender's, and what is still inside, is what it put in.
pub(crate) struct Ordered;

impl Protocol<Post, Line> for Ordered {
    ghost holds = { InOrder };

    ghost first = { first_line };
}

pub(crate) type Queue = RuledArrayQueue<Post, Line, Ordered>;

pub(crate) type LinePass = Pass<Post, Line>;

/// The receiver's end is cut off.
pub(crate) struct CutReceiver;

impl Split<Line> for CutReceiver {
    ghost left = { λ v. sending_line };

    ghost right = { λ v. receiving_line };
}

/// One sender more.
pub(crate) struct OneMore;

impl Split<Line> for OneMore {
    ghost left = { parent_line };

    ghost right = { child_line };
}

/// A sender is joined into the receiver.
pub(crate) struct TakeIn;

impl Join<Line> for TakeIn {
    ghost both = { joined_line };

    ghost spent = { spent_line };
}

/// A letter is put in.
pub(crate) struct Puts;

impl Outcome<Post, Line> for Puts {
    ghost then = { λ v post w. w ≡ put_line v (mail_of post) };
}

/// A letter is taken out.
pub(crate) struct Gets;

impl Outcome<Post, Line> for Gets {
    ghost then = { λ v post w. (w ≡ got_line v post) × IsTold w };
}

/// What the receiver knows of the letters of senders that were joined.
pub(crate) struct Tells;

impl Lesson<Post, Line> for Tells {
    ghost fact = { λ v items. IsTold v };
}
