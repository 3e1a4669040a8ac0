//! A board of 64 places, each with a writer of its own.

use glance::{Board, Totals};
use std::test::Fail;

#[test]
fn each_place_shows_what_its_writer_published(rt: HostRuntime) -> Result<(), Fail> {
    const SMALL: Totals = Totals {
        events: 3,
        waiting: 1,
    };
    const LARGEST: Totals = Totals {
        events: 1_099_511_627_775,
        waiting: 16_777_215,
    };
    let (board, mut writers, mut pass) = Board::new(rt.alloc(), 64)?;
    let mut last = writers.take(63);
    let mut first = writers.take(0);
    board.publish(&mut last, LARGEST);
    board.publish(&mut first, SMALL);
    assert_eq!(rt; board.glance(&mut pass, 0), SMALL);
    let none = board.glance(&mut pass, 62);
    assert_eq!(rt; (none.events, none.waiting), (0, 0));
    assert_eq!(rt; board.glance(&mut pass, 63), LARGEST);
    Ok(())
}
