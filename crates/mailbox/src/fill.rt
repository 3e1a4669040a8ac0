//! The word that counts the letters of a mailbox, what the ends know of it, and what each kind of
//! step tells.
ghost use Rattle.mailbox.specs.Fills.{Counts, first_fill, sending_fill, receiving_fill};
ghost use Rattle.mailbox.specs.Fills.{parent_fill, child_fill, joined_fill, spent_fill};
ghost use Rattle.mailbox.specs.Fills.{LooksForRoom, LooksForLetters, Claims, Frees, Learns};

use crate::view::Fill;
use atomic_table::{Join, Play, Seat, Split, Table, TableRule};
use std::alloc::Global;

/// The word that counts the letters.
pub(crate) const FILL: usize = 0;

/// The word is what was claimed and not freed, and at most the capacity, which is the key.
pub(crate) struct Counted;

impl TableRule<u8, Fill, u64> for Counted {
    ghost holds = { Counts };

    ghost first = { first_fill };
}

pub(crate) type Gauge = Table<u8, Fill, u64, Counted, Global>;

pub(crate) type Chair = Seat<u8, Fill>;

/// The receiver's end is cut off.
pub(crate) struct CutReceiver;

impl Split<Fill> for CutReceiver {
    ghost left = { λ v. sending_fill v.capacity };

    ghost right = { λ v. receiving_fill v.capacity };
}

/// One sender more.
pub(crate) struct OneMore;

impl Split<Fill> for OneMore {
    ghost left = { parent_fill };

    ghost right = { child_fill };
}

/// A sender is joined into the receiver.
pub(crate) struct TakeIn;

impl Join<Fill> for TakeIn {
    ghost both = { joined_fill };

    ghost spent = { spent_fill };
}

/// A sender looks for room, and counts where it found none.
pub(crate) struct LookForRoom;

impl Play<u8, Fill> for LookForRoom {
    ghost then = { LooksForRoom };
}

/// The receiver looks for letters, and counts where it found none.
pub(crate) struct LookForLetters;

impl Play<u8, Fill> for LookForLetters {
    ghost then = { LooksForLetters };
}

/// Room is claimed.
pub(crate) struct Claim;

impl Play<u8, Fill> for Claim {
    ghost then = { Claims };
}

/// Room is freed.
pub(crate) struct Free;

impl Play<u8, Fill> for Free {
    ghost then = { Frees };
}

/// A look behind a join, which tells what follows once all senders are joined.
pub(crate) struct Learn;

impl Play<u8, Fill> for Learn {
    ghost then = { Learns };
}
