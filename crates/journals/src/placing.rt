//! Words and numbers put into a slice, one after the other: so the lines of journals and ledgers are
//! written.

ghost use Rattle.std.specs.Prelude.{◌≡◌, ◌+◌, ◌≤◌, ◌<◌, ◌++◌, length, decimal};
ghost use Rattle.journals.specs.Format as text;
ghost use Rattle.journals.specs.Placing.{Placed};

use itoa::write_digits;

/// Puts a word, and answers the place after it.
#[inline(always)]
pub fn put_word(word: &str, to: &mut [u8], at: usize) -> usize
    requires room { at + length word.now ≤ length to.old }
    ensures { Placed to.old to.new at word.now result }
{
    let end = at + word.len();
    to[at..end].copy_from_slice(word.as_bytes());
    end
}

/// Puts a word and a number after it, in decimal.
#[inline(always)]
pub fn put_number(word: &str, number: u64, to: &mut [u8], at: usize) -> usize
    requires room { at + length (word.now ++ decimal number) ≤ length to.old }
    ensures { Placed to.old to.new at (word.now ++ decimal number) result }
{
    let at = put_word(word, to, at);
    put_decimal(number, to, at)
}

/// Puts a number in decimal. Most numbers of a line have one digit.
#[inline(always)]
fn put_decimal(number: u64, to: &mut [u8], at: usize) -> usize
    requires room { at + length (decimal number) ≤ length to.old }
    ensures { Placed to.old to.new at (decimal number) result }
{
    if number < 10 {
        put_digit(number, to, at)
    } else {
        put_long(number, to, at)
    }
}

/// Puts a number of one digit.
#[inline(always)]
fn put_digit(number: u64, to: &mut [u8], at: usize) -> usize
    requires few { number < 10 }
    requires room { at + length (decimal number) ≤ length to.old }
    ensures { Placed to.old to.new at (decimal number) result }
{
    to[at] = b'0' + number as u8;
    at + 1
}

/// Puts a number of two digits and more. Where the count of digits is a constant, it costs nothing
/// to have counted them.
fn put_long(number: u64, to: &mut [u8], at: usize) -> usize
    requires long { 10 ≤ number }
    requires room { at + length (decimal number) ≤ length to.old }
    ensures { Placed to.old to.new at (decimal number) result }
{
    if number < 100 {
        put_counted(number, 2, to, at)
    } else if number < 1_000 {
        put_counted(number, 3, to, at)
    } else if number < 10_000 {
        put_counted(number, 4, to, at)
    } else if number < 100_000 {
        put_counted(number, 5, to, at)
    } else {
        put_counted(number, count_digits(number), to, at)
    }
}

/// Puts a number of so many digits.
#[inline(always)]
fn put_counted(number: u64, digits: usize, to: &mut [u8], at: usize) -> usize
    requires counted { digits ≡ length (decimal number) }
    requires room { at + length (decimal number) ≤ length to.old }
    ensures { Placed to.old to.new at (decimal number) result }
{
    let end = at + digits;
    write_digits(number, to, end);
    end
}

/// How many digits a number has in decimal.
#[inline(always)]
fn count_digits(number: u64) -> usize
    ensures { result ≡ length (decimal number) }
{
    if number < 10_000 {
        count_few(number)
    } else if number < 100_000_000 {
        4 + count_few(number / 10_000)
    } else if number < 1_000_000_000_000 {
        8 + count_few(number / 100_000_000)
    } else {
        count_many(number)
    }
}

/// The same of a number that has more than twelve.
fn count_many(number: u64) -> usize
    requires many { 1000000000000 ≤ number }
    ensures { result ≡ length (decimal number) }
{
    if number < 10_000_000_000_000_000 {
        12 + count_few(number / 1_000_000_000_000)
    } else {
        16 + count_few(number / 10_000_000_000_000_000)
    }
}

/// The same of a number that has four at most.
#[inline(always)]
fn count_few(number: u64) -> usize
    requires few { number < 10000 }
    ensures digits { result ≡ length (decimal number) }
    ensures most { result ≤ 4 }
{
    if number < 10 {
        1
    } else if number < 100 {
        2
    } else if number < 1_000 {
        3
    } else {
        4
    }
}

/// Puts a word and its number, where there is one.
#[inline(always)]
pub(crate) fn put_option(word: &str, number: Option<u32>, to: &mut [u8], at: usize) -> usize
    requires room { at + length (text.part word.now number) ≤ length to.old }
    ensures { Placed to.old to.new at (text.part word.now number) result }
{
    match number {
        Some(number) => put_number(word, number as u64, to, at),
        None => at,
    }
}
