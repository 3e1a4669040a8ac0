//! Bytes as hexadecimal digits, many at a time.

ghost use Rattle.std.specs.Prelude.{◌≡◌, ◌*◌, ◌≤◌, ◌<◌, length, map, slice_index, take};
ghost use Rattle.hex.specs.Hex.{encode_lower, lower_digits};
ghost use lib.Lanes.{Each1};

use std::simd::prelude::*;

/// How many digits a byte has.
pub(crate) const DIGITS: usize = 2;
/// What is added to a number below 10 for its digit.
const DIGIT: u8 = b'0';
/// What is added to a number from 10 on for its digit, so that 10 is an `a`.
const LETTER: u8 = b'a' - 10;

/// Writes the digits of the first 16 bytes.
#[inline(always)]
fn put_16(bytes: &[u8], to: &mut [u8])
    requires bytes { 16 ≤ length bytes.now }
    requires room { 32 ≤ length to.old }
    ensures digits { take 32 to.new ≡ encode_lower (take 16 bytes.now) }
{
    let bytes = u8x16::from_slice(bytes);
    let high = bytes >> 4;
    let low = bytes & u8x16::splat(15);
    let (first, second) = digits_16(high).interleave(digits_16(low));
    first.copy_to_slice(to);
    second.copy_to_slice(&mut to[16..]);
}

/// The digit of each lane.
#[inline(always)]
fn digits_16(lanes: u8x16) -> u8x16
    requires lanes { length lanes ≡ 16 }
    requires small { Each1 (λ n. n < 16) lanes }
    ensures { result ≡ map (λ n. slice_index lower_digits n) lanes }
{
    lanes
        + lanes
            .simd_gt(u8x16::splat(9))
            .select(u8x16::splat(LETTER), u8x16::splat(DIGIT))
}

/// Writes the digits of the first 8 bytes.
#[inline(always)]
#[tactic(auto, using(crate::proofs::Lanes::masked_long))]
fn put_8(bytes: &[u8], to: &mut [u8])
    requires bytes { 8 ≤ length bytes.now }
    requires room { 16 ≤ length to.old }
    ensures digits { take 16 to.new ≡ encode_lower (take 8 bytes.now) }
{
    let bytes = u8x8::from_slice(bytes);
    let high = bytes >> 4;
    let low = bytes & u8x8::splat(15);
    let (first, second) = digits_8(high).interleave(digits_8(low));
    first.copy_to_slice(to);
    second.copy_to_slice(&mut to[8..]);
}

/// The digit of each lane.
#[inline(always)]
fn digits_8(lanes: u8x8) -> u8x8
    requires lanes { length lanes ≡ 8 }
    requires small { Each1 (λ n. n < 16) lanes }
    ensures { result ≡ map (λ n. slice_index lower_digits n) lanes }
{
    lanes
        + lanes
            .simd_gt(u8x8::splat(9))
            .select(u8x8::splat(LETTER), u8x8::splat(DIGIT))
}

/// Writes the digits of these bytes, of up to 16 at a time. Of a last piece that is shorter, some
/// are written twice.
#[inline(never)]
pub(crate) fn put_digits(bytes: &[u8], to: &mut [u8])
    requires room { length to.old ≡ length bytes.now * 2 }
    ensures digits { to.new ≡ encode_lower bytes.now }
{
    if bytes.len() >= 16 {
        put_many(bytes, to);
    } else if bytes.len() >= 8 {
        put_8(bytes, to);
        let last = bytes.len() - 8;
        put_8(&bytes[last..], &mut to[last * DIGITS..]);
    } else {
        let Ok(()) = hex::encode_to_slice(bytes, to) else {
            unreachable!()
        };
    }
}

/// The same of 16 bytes or more.
fn put_many(bytes: &[u8], to: &mut [u8])
    requires many { 16 ≤ length bytes.now }
    requires room { length to.old ≡ length bytes.now * 2 }
    ensures digits { to.new ≡ encode_lower bytes.now }
{
    let mut at = 0;
    while bytes.len() - at >= 16 {
        put_16(&bytes[at..], &mut to[at * DIGITS..]);
        at += 16;
    }
    let last = bytes.len() - 16;
    put_16(&bytes[last..], &mut to[last * DIGITS..]);
}
