//! A turn lock: two passes append to its list, one after the other and in two threads.

ghost use Rattle.std.specs.Prelude.{◌≡◌, ℕ, [], IfSome};
ghost use Rattle.turn_lock.specs.declared.view.Turn.TheVariants.{Outside};
ghost use Rattle.turn_lock.specs.Passes.{view_of, IsOf};

use std::alloc::Global;
use std::sync::Wait;
use std::test::Fail;
use std::thread::join;
use turn_lock::{Pass, Storied, TurnLock};

/// A list of numbers, which has a name.
#[derive(Drop)]
struct Numbers {
    name: u64,
    list: Vec<u64>,
}

impl Storied for Numbers {
    type Entry = u64;

    ghost Label = { ℕ };

    ghost entries = { λ numbers. numbers.list.items };

    ghost label = { λ numbers. numbers.name };
}

/// No number yet.
fn none_yet(alloc: Global) -> Numbers
    ensures { result.list.items ≡ [] }
{
    Numbers {
        name: 7,
        list: Vec::new(alloc),
    }
}

/// Appends so many numbers from `first` on, each in a turn; `None` without memory for one.
fn append<R: Wait>(
    rt: &R,
    lock: &TurnLock<Numbers>,
    mut pass: Pass<Numbers>,
    first: u64,
    count: u64,
) -> Option<Pass<Numbers>>
    requires { IsOf lock.now pass × ((view_of pass).turn ≡ Outside) }
    ensures pass { IfSome result (λ p. IsOf lock.now p × ((view_of p).turn ≡ Outside)
        × ((view_of p).part ≡ (view_of pass).part)) }
{
    for number in 0..count {
        let mut held = lock.enter(rt, &mut pass);
        let pushed = held.state().list.push(first.wrapping_add(number)).is_ok();
        lock.leave(&mut pass, held);
        if !pushed {
            return None;
        }
    }
    Some(pass)
}

#[test]
fn two_passes_append(rt: HostRuntime) -> Result<(), Fail> {
    let Ok((lock, mut one)) = TurnLock::new(rt.alloc(), none_yet(rt.alloc())) else {
        return Err("no memory for a lock".into());
    };
    let two = lock.split(&mut one)?;
    let one = append(&rt, &lock, one, 1, 1);
    let two = append(&rt, &lock, two, 2, 1);
    let (Some(mut one), Some(two)) = (one, two) else {
        return Err("no memory for a number".into());
    };
    lock.join(&mut one, two);
    let numbers = lock.close(one);
    assert_eq!(rt; numbers.list.as_slice(), [1, 2].as_slice());
    assert_eq!(rt; numbers.name, 7);
    Ok(())
}

#[test]
fn two_threads_append_a_thousand_numbers_each(rt: HostRuntime) -> Result<(), Fail> {
    let Ok((lock, mut one)) = TurnLock::new(rt.alloc(), none_yet(rt.alloc())) else {
        return Err("no memory for a lock".into());
    };
    let two = lock.split(&mut one)?;
    let (shared, handle) = (&lock, &rt);
    let (one, two) = join(
        handle,
        move || append(handle, shared, one, 0, 1000),
        move || append(handle, shared, two, 1000, 1000),
    );
    let (Some(mut one), Some(two)) = (one, two) else {
        return Err("no memory for a number".into());
    };
    lock.join(&mut one, two);
    let numbers = lock.close(one);
    // Each thread's next number.
    let (mut low, mut high) = (0u64, 1000u64);
    for number in numbers.list.as_slice() {
        if *number < 1000 {
            assert_eq!(rt; *number, low);
            low = low.wrapping_add(1);
        } else {
            assert_eq!(rt; *number, high);
            high = high.wrapping_add(1);
        }
    }
    assert_eq!(rt; (low, high), (1000, 2000));
    Ok(())
}
