//! How many further `down` lines can have been put into a history so far.

ghost use Rattle.std.specs.Prelude.{◌≡◌, true, MatchOption, IfOk};
ghost use Rattle.feeder_audit.specs.Rows as rows;

use packet_entry::NoMemory;
use script_lines::Down;
use std::alloc::Global;

/// How many of the lines that are left can have been put in.
#[derive(Drop)]
pub(crate) enum Ways {
    /// No number of them: the history isn't one that was fed so.
    Nowhere,
    /// None of them.
    Here,
    /// Any number of them.
    FromHere,
    /// The numbers whose flag is set, counted from 0.
    These(Vec<bool>),
}

impl Ways {
    /// Whether so many lines can have been put in.
    pub(crate) fn has(&self, lines: usize) -> bool
        ensures { result ≡ rows.row_of self.now lines }
    {
        match self {
            Ways::Nowhere => false,
            Ways::Here => lines == 0,
            Ways::FromHere => true,
            Ways::These(flags) => match flags.get(lines) {
                Some(flag) => *flag,
                None => false,
            },
        }
    }

    /// The least number of lines that can have been put in, where `left` are left.
    pub(crate) fn least(&self, left: usize) -> Option<usize>
        ensures { MatchOption result (rows.HasNone (rows.row_of self.now) left)
            (rows.IsLeast (rows.row_of self.now) left) }
    {
        match self {
            Ways::Nowhere => None,
            Ways::Here => Some(0),
            Ways::FromHere => Some(0),
            Ways::These(_) => self.first(left),
        }
    }

    /// The first number that can be, of those up to `left`.
    fn first(&self, left: usize) -> Option<usize>
        ensures { MatchOption result (rows.HasNone (rows.row_of self.now) left)
            (rows.IsLeast (rows.row_of self.now) left) }
    {
        for lines in 0..left {
            if self.has(lines) {
                return Some(lines);
            }
        }
        if self.has(left) { Some(left) } else { None }
    }

    /// The numbers behind the first of these lines, once this device went down: by that line or by
    /// one behind it.
    pub(crate) fn fallen(&self, alloc: Global, device: u32, left: &[Down]) -> Result<Ways, NoMemory>
        ensures { IfOk result (rows.IsFallen device left.now (rows.row_of self.now)) }
    {
        match self {
            Ways::Nowhere => Ok(Ways::Nowhere),
            Ways::Here => Ok(by_first(device, left)),
            Ways::FromHere => Ok(Ways::These(self.flags(alloc, device, left)?)),
            Ways::These(_) => Ok(Ways::These(self.flags(alloc, device, left)?)),
        }
    }

    /// The same as flags, one for each line.
    fn flags(&self, alloc: Global, device: u32, left: &[Down]) -> Result<Vec<bool>, NoMemory>
        ensures { IfOk result (λ flags.
            flags.items ≡ rows.fallen device left.now (rows.row_of self.now) 0) }
    {
        let mut flags = Vec::with_capacity(alloc, left.len())?;
        for place in 0..left.len() {
            flags.push(left[place].device == device && self.has(place))?;
        }
        Ok(flags)
    }
}

/// The numbers behind the first line, where it is the only one by which the device can go down.
fn by_first(device: u32, left: &[Down]) -> Ways
    ensures { rows.IsFallen device left.now (rows.only true) result }
{
    match left.first() {
        Some(first) if first.device == device => Ways::Here,
        Some(_) => Ways::Nowhere,
        None => Ways::Nowhere,
    }
}
