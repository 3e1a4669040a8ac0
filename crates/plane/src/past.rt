//! What a feeder's pass keeps of passes that were joined into it.

ghost use Rattle.std.specs.Prelude.{◌≡◌, ◌++◌};
ghost use Rattle.plane.specs.Past.{fed_by, lost_by};

use histories::Lost;
use packet_entry::{Card, NoMemory, Stock};
use std::alloc::Global;
use std::mem::replace;

/// What a pass fed and lost before its own lists, by passes that were joined.
#[derive(Drop)]
#[cycle(past)]
pub(crate) enum Past {
    /// None was joined.
    Nothing,
    Joined(Box<Link>),
}

/// The lists of one pass, between those that come before and those that come after.
#[derive(Drop)]
#[cycle(past)]
pub(crate) struct Link {
    pub(crate) front: Past,
    pub(crate) fed: Stock<Card>,
    pub(crate) lost: Stock<Lost>,
    pub(crate) back: Past,
}

/// Memory for a link.
pub(crate) fn new_link(alloc: Global) -> Result<Box<Link>, NoMemory> {
    Ok(Box::new(
        alloc,
        Link {
            front: Past::Nothing,
            fed: Stock::new(alloc),
            lost: Stock::new(alloc),
            back: Past::Nothing,
        },
    )?)
}

/// Links the lists of a pass to those that come before and to those that come after. Takes no
/// memory but the link's own.
fn linked(mut link: Box<Link>, front: Past, fed: Stock<Card>, lost: Stock<Lost>, back: Past) -> Past
    ensures fed { fed_by result ≡ fed_by front ++ (fed.items ++ fed_by back) }
    ensures lost { lost_by result ≡ lost_by front ++ (lost.items ++ lost_by back) }
{
    link.front = front;
    link.fed = fed;
    link.lost = lost;
    link.back = back;
    Past::Joined(link)
}

/// Puts what other passes fed and lost behind what one did: its own lists go into the past, and the
/// other's list of packets fed is then its own.
pub(crate) fn put_behind(
    past: &mut Past,
    own: &mut Stock<Card>,
    lost: Stock<Lost>,
    link: Box<Link>,
    back: Past,
    fed: Stock<Card>,
)
    ensures fed { fed_by past.new ≡ fed_by past.old ++ (own.old.items ++ fed_by back) }
    ensures lost { lost_by past.new ≡ lost_by past.old ++ (lost.items ++ lost_by back) }
    ensures own { own.new ≡ fed }
{
    let front = replace(past, Past::Nothing);
    let before = replace(own, fed);
    *past = linked(link, front, before, lost, back);
}
