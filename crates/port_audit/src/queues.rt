//! The numbers of queues.

ghost use Rattle.std.specs.Prelude.{◌<◌};
ghost use Rattle.histories.specs.Numbers.{queue_count};

/// The number of a queue is below their count.
pub(crate) fn is_queue_number(queue: u16)
    ensures { queue < queue_count }
{}
