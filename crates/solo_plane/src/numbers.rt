//! The numbers of the ports.

ghost use Rattle.std.specs.Prelude.{◌≡◌, Some, IfOk, true};
ghost use Rattle.solo_plane.specs.PortPlaces.{AreApart, place_in};

use packet_entry::NoMemory;
use std::alloc::Global;

/// The numbers of the ports, in the order in which they opened. None is there twice.
#[derive(Drop)]
pub(crate) struct Numbers {
    pub(crate) all: Vec<u32>,
    ghost apart: { AreApart all.items },
}

impl Numbers {
    /// These numbers.
    pub(crate) fn new(alloc: Global, ports: &[u32]) -> Result<Numbers, NoMemory>
        requires { AreApart ports.now }
        ensures { IfOk result (λ numbers. numbers.all.items ≡ ports.now) }
    {
        Ok(Numbers {
            all: Vec::from_slice(alloc, ports)?,
        })
    }

    /// At which place a port is.
    pub(crate) fn place_of(&self, port: u32) -> Option<usize>
        ensures { result ≡ place_in self.now.all.items port }
    {
        let mut place = 0;
        for number in &self.all {
            if port == *number {
                return Some(place);
            }
            place += 1;
        }
        None
    }

    /// Whether a port is at this place.
    pub(crate) fn is_at(&self, port: u32, place: usize) -> bool
        ensures { result ≡ true → place_in self.now.all.items port ≡ Some place }
    {
        let all = self.all.as_slice();
        place < all.len() && port == all[place]
    }
}
