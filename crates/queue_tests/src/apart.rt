//! Queues of each of 64 places.

ghost use Rattle.std.specs.Prelude.{◌≡◌, ◌<◌, false, None};
ghost use Rattle.place_history.specs.PlaceState.{IsAt};

use crate::packets::released;
use histories::Entries;
use nfqa_msgs::{BIND, Request};
use packet_entry::NoMemory;
use place_history::Place;
use queue_core::Handed;
use std::alloc::Global;
use std::test::Fail;
use test_inputs::debug;

/// Port 7 binds three queues of each of 64 places. Answered are the places where not just these are
/// entered.
pub fn apart(alloc: Global) -> Result<String, Fail> {
    let mut others = Vec::new(alloc);
    for place in 0..64u8 {
        let entries = three_bound(alloc, place)?;
        let first = place as u16;
        let queues = [first, first + 64, first + 65_472];
        let same = entries
            .iter()
            .zip(queues)
            .all(|(entry, queue)| entry.queue == queue);
        if !same || entries.len() != 3 {
            others.push(place)?;
        }
    }
    Ok(debug(alloc, others)?)
}

fn three_bound(alloc: Global, number: u8) -> Result<Entries, NoMemory>
    requires { number < 64 }
{
    let mut place = Place::new(alloc, number, 64);
    let first = bind(&mut place, alloc, number as u16);
    let second = bind(&mut place, alloc, number as u16 + 64);
    let last = bind(&mut place, alloc, number as u16 + 65_472);
    place.leave_waiting();
    let entries = place.into_entries();
    first?;
    second?;
    last?;
    Ok(entries)
}

fn bind(place: &mut Place, alloc: Global, queue: u16) -> Result<u16, NoMemory>
    requires here { IsAt place.old queue }
    requires no_offer { place.old.offer ≡ None }
    requires standing { place.old.is_left ≡ false }
    ensures no_offer { place.new.offer ≡ None }
    ensures standing { place.new.is_left ≡ false }
    ensures places { place.new.places ≡ place.old.places }
    ensures number { place.new.number ≡ place.old.number }
{
    let request = Request::Config {
        queue,
        command: Some(BIND),
        params: None,
        maxlen: None,
        flags: None,
        mask: None,
    };
    let mut handed = Handed::new(alloc);
    let errno = place.ask(alloc, 7, 1, request, &mut handed);
    released(alloc, handed)?;
    errno
}
