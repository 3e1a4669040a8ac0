//! The ids of what waits: the next one, and which is after which.

ghost use Rattle.std.specs.Prelude.{◌≡◌, ◌<◌, length};
ghost use Rattle.std.specs.Map.{keys_of};
ghost use Rattle.queue_core.specs.Numbers.{id_count};
ghost use Rattle.queue_core.specs.Ids.{fresh, after};

use crate::waiting::Waiting;

/// Half of all ids, which are of 32 bits.
const HALF_OF_IDS: u32 = 0x8000_0000;

/// The id that the next arrival gets.
pub(crate) fn fresh_id(last: u32, waiting: &Waiting) -> u32
    requires { length waiting.now < id_count }
    ensures { result ≡ fresh last (keys_of waiting.now) }
{
    let mut id = last.wrapping_add(1);
    for _ in 0..waiting.len() {
        if !waiting.contains(id) {
            return id;
        }
        id = id.wrapping_add(1);
    }
    id
}

/// Whether an id is after another, with both counted modulo 2^32. (`nfq_id_after`)
pub fn is_after(id: u32, other: u32) -> bool
    ensures { result ≡ after id other }
{
    let way = id.wrapping_sub(other);
    0 < way && way < HALF_OF_IDS
}
