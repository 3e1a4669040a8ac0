//! Captures of one record, whole.
//!
//! The words were computed apart from this program, from the published algorithms: SplitMix64 gives
//! the four words of a state, and xoshiro256++ the outputs (Blackman and Vigna, "Scrambled linear
//! pseudorandom number generators"). The bytes were then written out by hand.

use generated::capture;
use pcap_io::write_capture;
use std::test::Fail;

/// The file of number 0: the word is 0x53175d61_490b23df. Bit 0 is 1: UDP. Bits 24 to 29 of 0x49
/// are 9: 9 bytes of payload. The addresses end with 0x23 and 0x0b.
#[rattlefmt::skip]
const OF_ZERO: [u8; 69] = [
    0xd4, 0xc3, 0xb2, 0xa1, //   0  magic number: little-endian, microseconds
    2, 0, 4, 0,             //   4  version 2.4
    0, 0, 0, 0,             //   8  time zone
    0, 0, 0, 0,             //  12  accuracy of times
    0, 0, 4, 0,             //  16  snap length, 262,144
    0x65, 0, 0, 0,          //  20  link type, 101: raw IP
    1, 0, 0, 0,             //  24  seconds
    0, 0, 0, 0,             //  28  microseconds
    0x1d, 0, 0, 0,          //  32  captured length, 29
    0x1d, 0, 0, 0,          //  36  original length, 29
    0x45, 0, 0, 0x1d, 0, 0, 0, 0, 0x40, 17, 0, 0, 10, 0, 0, 0x23, 10, 0, 1, 0x0b,
    0, 0, 0, 0, 0, 0, 0, 0, 0,
];

/// The same of number 2^64 - 1, whose word is 0x56ccf8ce_948e27b2. Bit 0 is 0: TCP. Bits 24 to 29
/// of 0x94 are 20: 20 bytes of payload. The addresses end with 0x27 and 0x8e.
#[rattlefmt::skip]
const OF_THE_LAST: [u8; 80] = [
    0xd4, 0xc3, 0xb2, 0xa1, 2, 0, 4, 0, 0, 0, 0, 0, 0, 0, 0, 0, 0, 0, 4, 0, 0x65, 0, 0, 0,
    1, 0, 0, 0, 0, 0, 0, 0, 0x28, 0, 0, 0, 0x28, 0, 0, 0,
    0x45, 0, 0, 0x28, 0, 0, 0, 0, 0x40, 6, 0, 0, 10, 0, 0, 0x27, 10, 0, 1, 0x8e,
    0, 0, 0, 0, 0, 0, 0, 0, 0, 0, 0, 0, 0, 0, 0, 0, 0, 0, 0, 0,
];

#[test]
fn a_number_gives_its_packets(rt: HostRuntime) -> Result<(), Fail> {
    const ROWS: [(u64, &[u8]); 2] = [(0, &OF_ZERO), (u64::MAX, &OF_THE_LAST)];
    for &(number, wanted) in &ROWS {
        let mut bytes = Vec::new(rt.alloc());
        write_capture(&capture(rt.alloc(), number, 1)?, &mut bytes)?;
        assert_eq!(rt; bytes.as_slice(), wanted, "of {number}");
    }
    Ok(())
}
