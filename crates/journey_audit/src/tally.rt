//! Tallies of arrivals: those that came, and those that were asked for, by the packet's number.

ghost use Rattle.std.specs.Prelude.{◌≡◌, ◌↔◌, [], option_to_list, IsTrue, MatchOption, OnOk};
ghost use Rattle.journey_audit.specs.Comparing as comparing;
ghost use Rattle.journey_audit.specs.Tallying as tallying;
ghost use Rattle.journey_audit.specs.Unmet.{AreAsMany};

use crate::arrival::Arrival;
use packet_entry::NoMemory;
use std::alloc::Global;
use std::collections::BTreeMap;

/// The arrivals of the packet with one number.
#[derive(Drop)]
pub(crate) struct Tally {
    pub(crate) came: Vec<Arrival>,
    pub(crate) asked: Vec<Arrival>,
}

/// Tallies by the packet's number.
pub(crate) type Tallies = BTreeMap<u32, Tally>;

impl Tally {
    fn new(alloc: Global) -> Tally
        ensures came { result.came.items ≡ [] }
        ensures asked { result.asked.items ≡ [] }
    {
        Tally {
            came: Vec::new(alloc),
            asked: Vec::new(alloc),
        }
    }

    /// Whether just the arrivals came that were asked for, each as often.
    ///
    /// Those that came are gone over by their visits. Up to the first that doesn't fit there is one
    /// of each visit at most, so this takes no longer than sorting.
    fn is_even(self) -> bool
        ensures { IsTrue result ↔ tallying.IsEven self }
    {
        let Tally { mut came, asked } = self;
        came.sort_unstable_by_key(|arrival| arrival.card.visit);
        are_as_many(&came, asked)
    }
}

/// Whether two lists have the same arrivals, each as often. Each of the one is found and taken out
/// of the other.
fn are_as_many(came: &Vec<Arrival>, mut asked: Vec<Arrival>) -> bool
    ensures { IsTrue result ↔ AreAsMany came.now.items asked.items }
{
    for arrival in came {
        let Some(place) = place_of(&asked, arrival) else {
            return false;
        };
        asked.swap_remove(place);
    }
    asked.is_empty()
}

/// The first place where an arrival stands.
fn place_of(arrivals: &Vec<Arrival>, wanted: &Arrival) -> Option<usize>
    ensures { MatchOption result (comparing.StandsNowhere arrivals.now.items wanted.now)
        (comparing.StandsAt arrivals.now.items wanted.now) }
{
    for place in 0..arrivals.len() {
        if arrivals[place].is_same(wanted) {
            return Some(place);
        }
    }
    None
}

/// Notes an arrival that came. When memory runs out, the tallies may be any.
pub(crate) fn note_came(
    alloc: Global,
    arrival: Arrival,
    tallies: &mut Tallies,
) -> Result<(), NoMemory>
    ensures { OnOk result (tallying.NotesCame tallies.old tallies.new arrival) }
{
    let number = arrival.card.number;
    if !tallies.contains_key(&number) {
        tallies.insert(number, Tally::new(alloc))?;
    }
    let Some(tally) = tallies.get_mut(&number) else {
        unreachable!()
    };
    tally.came.push(arrival)?;
    Ok(())
}

/// Notes an arrival that is asked for. When memory runs out, the tallies may be any.
fn note_one_asked(alloc: Global, arrival: Arrival, tallies: &mut Tallies) -> Result<(), NoMemory>
    ensures { OnOk result (tallying.NotesAsked tallies.old tallies.new arrival) }
{
    let number = arrival.card.number;
    if !tallies.contains_key(&number) {
        tallies.insert(number, Tally::new(alloc))?;
    }
    let Some(tally) = tallies.get_mut(&number) else {
        unreachable!()
    };
    tally.asked.push(arrival)?;
    Ok(())
}

/// Notes what is asked for, if anything is. When memory runs out, the tallies may be any.
#[tactic(auto, using(crate::proofs::Tallies::grows_asked, crate::proofs::Tallies::grows_by_none))]
pub(crate) fn note_asked(
    alloc: Global,
    asked: Option<Arrival>,
    tallies: &mut Tallies,
) -> Result<(), NoMemory>
    ensures { OnOk result
        (tallying.Grows tallies.old tallies.new [] (option_to_list asked)) }
{
    match asked {
        Some(arrival) => {
            note_one_asked(alloc, arrival, tallies)?;
            Ok(())
        }
        None => Ok(()),
    }
}

/// The least number with a tally that isn't even.
pub(crate) fn first_uneven(tallies: Tallies) -> Option<u32>
    ensures { tallying.IsFirstUneven tallies result }
{
    for (number, tally) in tallies {
        if !tally.is_even() {
            return Some(number);
        }
    }
    None
}
