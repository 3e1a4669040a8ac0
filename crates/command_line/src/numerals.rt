//! The numbers that arguments give.

ghost use Rattle.std.specs.Prelude.{◌≡◌, ◌≤◌, IfSome};
ghost use Rattle.packet_entry.specs.Numbers.{most_frames as most_records, most_places};
ghost use Rattle.hook_chain.specs.Numbers.{most_feeders};
ghost use Rattle.inspector_pool.specs.Numbers.{most_workers};
ghost use Rattle.command_line.specs.Numerals as numerals;

/// The radix of numbers.
const DECIMAL: u64 = 10;

/// The most records of a generated capture.
const MAX_RECORDS: u32 = 200_000;

/// The most places of a run with threads.
const MAX_PLACES: u32 = 64;

/// The most feeders of a run with threads.
const MAX_FEEDERS: u32 = 16;

/// The most workers behind each port of a run with threads.
const MAX_WORKERS: u32 = 16;

/// How many records a word asks for: 1 to 200,000.
pub fn count_of(word: &str) -> Option<u32>
    ensures value { result ≡ numerals.count_of word.now }
    ensures bounds { IfSome result (λ n. (1 ≤ n) × (n ≤ most_records)) }
{
    number_up_to(MAX_RECORDS, word)
}

/// How many places a word asks for: 1 to 64.
pub fn places_of(word: &str) -> Option<u8>
    ensures value { result ≡ numerals.places_of word.now }
    ensures bounds { IfSome result (λ n. (1 ≤ n) × (n ≤ most_places)) }
{
    let places = number_up_to(MAX_PLACES, word)?;
    Some(places as u8)
}

/// How many feeders a word asks for: 1 to 16.
pub fn feeders_of(word: &str) -> Option<u32>
    ensures value { result ≡ numerals.feeders_of word.now }
    ensures bounds { IfSome result (λ n. (1 ≤ n) × (n ≤ most_feeders)) }
{
    number_up_to(MAX_FEEDERS, word)
}

/// How many workers behind each port a word asks for: 1 to 16. One is no pool.
pub fn workers_of(word: &str) -> Option<u32>
    ensures value { result ≡ numerals.workers_of word.now }
    ensures bounds { IfSome result (λ n. (1 ≤ n) × (n ≤ most_workers)) }
{
    number_up_to(MAX_WORKERS, word)
}

/// How many of something a word asks for: 1 to `most`.
fn number_up_to(most: u32, word: &str) -> Option<u32>
    ensures value { result ≡ numerals.number_up_to most word.now }
    ensures bounds { IfSome result (λ n. (1 ≤ n) × (n ≤ most)) }
{
    let number = number_of(word)?;
    if 1 <= number && number <= u64::from(most) {
        Some(number as u32)
    } else {
        None
    }
}

/// The number of 64 bits that a word spells in decimal digits, without a leading zero but in `0`
/// itself.
pub fn number_of(word: &str) -> Option<u64>
    ensures { result ≡ numerals.number_of word.now }
{
    let digits = word.as_bytes();
    if digits.is_empty() || (digits.len() > 1 && digits[0] == b'0') {
        return None;
    }
    digits_onto(0, digits)
}

/// The number that these digits make of what stands before them.
fn digits_onto(before: u64, digits: &[u8]) -> Option<u64>
    ensures { result ≡ numerals.digits_onto before digits.now }
{
    let mut number = before;
    for digit in digits {
        number = with_digit(number, *digit)?;
    }
    Some(number)
}

/// The number with one digit more at its end, if it has 64 bits.
fn with_digit(number: u64, byte: u8) -> Option<u64>
    ensures { result ≡ numerals.with_digit number byte }
{
    if byte.is_ascii_digit() {
        number
            .checked_mul(DECIMAL)?
            .checked_add(u64::from(byte - b'0'))
    } else {
        None
    }
}
