//! `queue_core`: a batch at a queue whose last id is set, which no request does.

ghost use Rattle.std.specs.Prelude.{◌≡◌, None};

use crate::packets::{released, visiting};
use nfqa_msgs::{Head, Params};
use packet_entry::NoMemory;
use queue_core::{Begun, Handed, NoRoom, Queue, Settled};
use std::alloc::Global;
use std::fmt::Write;
use std::test::Fail;
use test_inputs::Row;

/// A queue of port 7, at which packets arrive once its last id is `after`, and once more once it is
/// `then`; and a batch that accepts all up to `id`. Answered are the ids that packets got, how many
/// the batch takes, how many wait and the last id, and the packets.
pub fn share(alloc: Global, row: &Row<'_>) -> Result<String, Fail> {
    let mut queue = Queue::bind(alloc, 7);
    let whole = Params { range: 0, mode: 2 };
    queue.configure(Some(whole), None, None, None);
    let mut handed = Handed::new(alloc);
    let done = batched(alloc, &mut queue, row, &mut handed);
    let last = queue.last();
    let waiting = queue.flush();
    queue.finish();
    let packets = released(alloc, handed);
    let mut shown = done?;
    let packets = packets?;
    let handed = if packets.is_empty() {
        "none"
    } else {
        packets.as_str()
    };
    write!(shown, "; {waiting} wait, last {last}; {handed}")?;
    Ok(shown)
}

fn batched(
    alloc: Global,
    queue: &mut Queue,
    row: &Row<'_>,
    handed: &mut Handed,
) -> Result<String, Fail>
    requires no_offer { queue.old.offer ≡ None }
    ensures no_offer { queue.new.offer ≡ None }
{
    let mut shown = String::new(alloc);
    arrive_after(alloc, queue, row, ("after", "count"), &mut shown)?;
    arrive_after(alloc, queue, row, ("then", "more"), &mut shown)?;
    let id = row.named_number("id").unwrap_or(0);
    let (mark, priority) = (row.named_number("mark"), row.named_number("priority"));
    let head = Head { verdict: 1, id };
    let taken = queue.batch(head, mark, priority, handed)?;
    write!(shown, "take {taken}")?;
    Ok(shown)
}

/// As many packets as a row says arrive after the last id that it says: of the first four the ids.
fn arrive_after(
    alloc: Global,
    queue: &mut Queue,
    row: &Row<'_>,
    names: (&str, &str),
    shown: &mut String,
) -> Result<(), Fail>
    requires no_offer { queue.old.offer ≡ None }
    ensures no_offer { queue.new.offer ≡ None }
{
    if let Some(id) = row.named_number(names.0) {
        queue.skip_to(id);
        for number in 0..row.named_number(names.1).unwrap_or(0) {
            let id = arrived(alloc, queue, number)?;
            if number < 4 {
                write!(shown, "{id} ")?;
            }
        }
    }
    Ok(())
}

/// A packet arrives: its id, or 0 where it isn't taken.
fn arrived(alloc: Global, queue: &mut Queue, number: u32) -> Result<u32, NoMemory>
    requires no_offer { queue.old.offer ≡ None }
    ensures no_offer { queue.new.offer ≡ None }
{
    let packet = visiting(alloc, number.wrapping_add(1), 1, &[0x45])?;
    match queue.begin(alloc, 5, packet) {
        Ok(Begun::Offered { port: _, letter: _ }) => match queue.settle(true) {
            Settled::Waiting { id } => Ok(id),
            Settled::Back { outcome: _, packet } => {
                packet.destroy();
                Ok(0)
            }
        },
        Ok(Begun::Back { outcome: _, packet }) => {
            packet.destroy();
            Ok(0)
        }
        Err(NoRoom { packet }) => {
            packet.destroy();
            Err(NoMemory)
        }
    }
}
