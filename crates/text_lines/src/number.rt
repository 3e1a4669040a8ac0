//! The numbers that words spell.

ghost use Rattle.std.specs.Prelude.{◌≡◌, ◌+◌, ◌*◌, ◌-◌, ◌<◌, ◌≤◌, ◌^◌};
ghost use Rattle.text_lines.specs.Digits.{below, decimal, decimal_below, digit_in, number, wide};

/// The radix of a number without a prefix.
const DECIMAL: u32 = 10;
/// The radix of a number after `0x`.
const HEXADECIMAL: u32 = 16;
/// What the digits `a` and `A` stand for.
const FIRST_LETTER_DIGIT: u8 = 10;

/// The number that the digits of this radix spell. `None` where there is no digit, where a byte is
/// no digit of the radix, and where the number doesn't fit 32 bits.
#[tactic(auto, unfolding(crate::specs::Digits::number))]
fn number(word: &[u8], radix: u32) -> Option<u32>
    requires { 1 ≤ radix }
    ensures { result ≡ number radix word.now }
{
    if word.is_empty() {
        return None;
    }
    let mut number: u32 = 0;
    for byte in word {
        let digit = digit(*byte, radix)?;
        number = with_digit(number, radix, digit)?;
    }
    Some(number)
}

/// The number with one more digit at its end, if it fits.
fn with_digit(number: u32, radix: u32, digit: u32) -> Option<u32>
    ensures { result ≡ below (2 ^ 32) (number * radix + digit) }
{
    number.checked_mul(radix)?.checked_add(digit)
}

/// What a byte stands for as a digit of this radix.
fn digit(byte: u8, radix: u32) -> Option<u32>
    ensures { result ≡ digit_in radix byte }
{
    let value = match byte {
        b'0'..=b'9' => byte - b'0',
        b'a'..=b'f' => byte - b'a' + FIRST_LETTER_DIGIT,
        b'A'..=b'F' => byte - b'A' + FIRST_LETTER_DIGIT,
        _ => return None,
    };
    let value = u32::from(value);
    if value < radix { Some(value) } else { None }
}

/// A decimal number below 2^32, without a leading zero.
#[tactic(auto, unfolding(crate::specs::Digits::decimal))]
pub fn decimal(word: &[u8]) -> Option<u32>
    ensures { result ≡ decimal word.now }
{
    if word.len() > 1 && word[0] == b'0' {
        return None;
    }
    number(word, DECIMAL)
}

/// A decimal number of 16 bits.
pub fn decimal_16(word: &[u8]) -> Option<u16>
    ensures { result ≡ decimal_below (2 ^ 16) word.now }
{
    u16::try_from(decimal(word)?).ok()
}

/// A decimal number of 8 bits.
pub fn decimal_8(word: &[u8]) -> Option<u8>
    ensures { result ≡ decimal_below (2 ^ 8) word.now }
{
    u8::try_from(decimal(word)?).ok()
}

/// A number of 32 bits: decimal without a leading zero, or `0x` and hexadecimal digits in either
/// case, which may begin with zeros.
#[tactic(auto, unfolding(crate::specs::Digits::wide))]
pub fn wide(word: &[u8]) -> Option<u32>
    ensures { result ≡ wide word.now }
{
    match word.strip_prefix(b"0x") {
        Some(digits) => number(digits, HEXADECIMAL),
        None => decimal(word),
    }
}
