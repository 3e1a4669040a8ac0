//! Where places post what happens at them.
use glance::Board;
use mailbox::Mailbox;
use std::collections::BTreeMap;

/// Where places post what happens at them: each port's mailbox, by port, and the board of their
/// totals. Threads share it.
#[derive(Drop)]
pub struct Outlets {
    /// The mailbox of each port.
    pub mailboxes: BTreeMap<u32, Mailbox>,
    /// The totals of all places.
    pub board: Board,
}
