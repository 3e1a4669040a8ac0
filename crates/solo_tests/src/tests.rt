//! What no contract says: that the calls succeed where there is memory, on each kind of input, and
//! that what the definitions say of them is what was meant. What happened is compared with journals
//! that were written out by hand.

mod cut;
mod planes;
mod runs;

use histories::Histories;
use journals::journal_text;
use std::alloc::Global;
use std::test::Fail;

/// One table, whose rule queues every packet at queue 0.
const ONE_RULE: &[u8] = b"*filter\n-A FORWARD -j NFQUEUE --queue-num 0\nCOMMIT\n";

/// The journal of histories in which no packet was lost.
fn journal_of(alloc: Global, histories: &Histories) -> Result<Vec<u8>, Fail> {
    if !histories.lost.is_empty() {
        return Err(Fail::new("a packet was lost"));
    }
    let mut out = Vec::new(alloc);
    journal_text(alloc, histories, &mut out)?;
    Ok(out)
}

/// The packet with this number: 20 bytes, from 10.0.0.1 to 10.0.0.2.
fn packet_bytes(number: u8) -> [u8; 20] {
    [
        0x45, 0, 0, 20, 0, number, 0, 0, 0x40, 6, 0, 0, 10, 0, 0, 1, 10, 0, 0, 2,
    ]
}
