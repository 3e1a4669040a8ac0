//! Items put into the order that a list of their places gives.

ghost use Rattle.std.specs.Prelude.{◌≡◌, ◌<◌, ◌^◌, length, IfOk, OnOk};
ghost use Rattle.histories.specs.Rearrangement.{ArePlaces, AreInverse, IsRearranged};

use std::alloc::{AllocError, Global};

/// Puts at each place the item whose place `from` has there. Takes 4 bytes an item.
pub(crate) fn rearrange<T>(
    alloc: Global,
    list: &mut [T],
    from: &mut [u32],
) -> Result<(), AllocError>
    requires few { length from.old < 2 ^ 32 }
    requires same_length { length from.old ≡ length list.old }
    requires places { ArePlaces from.old }
    ensures { OnOk result (IsRearranged from.old list.old list.new) }
{
    let mut to = inverse(alloc, from)?;
    settle(list, from, &mut to);
    Ok(())
}

/// For each place, where in `from` it is.
fn inverse(alloc: Global, from: &[u32]) -> Result<Vec<u32>, AllocError>
    requires few { length from.now < 2 ^ 32 }
    requires places { ArePlaces from.now }
    ensures { IfOk result (λ to. AreInverse from.now to.items) }
{
    let mut to = vec![in alloc; 0; from.len()]?;
    for place in 0..from.len() {
        to[from[place] as usize] = place as u32;
    }
    Ok(to)
}

/// One exchange a place: the item that belongs there comes, and what stood there goes where that
/// one was. `from` and `to` are kept true of what is still to be done.
fn settle<T>(list: &mut [T], from: &mut [u32], to: &mut [u32])
    requires same_length { length from.old ≡ length list.old }
    requires inverse { AreInverse from.old to.old }
    ensures { IsRearranged from.old list.old list.new }
{
    for place in 0..list.len() {
        let source = from[place] as usize;
        let target = to[place] as usize;
        list.swap(place, source);
        from.swap(place, target);
        to.swap(place, source);
    }
}
