//! Whether two lists of bytes are the same, many lanes at a time.

ghost use Rattle.std.specs.Prelude.{◌≡◌, ◌↔◌, ◌≤◌, IsTrue, length, take};

use std::simd::prelude::*;

/// Whether two lists are the same bytes. Up to 64 bytes are compared at once; of a last piece that
/// is shorter some are compared twice.
pub fn same_bytes(a: &[u8], b: &[u8]) -> bool
    ensures { IsTrue result ↔ (a.now ≡ b.now) }
{
    if a.len() != b.len() {
        return false;
    }
    if a.len() < 16 {
        a == b
    } else if a.len() < 32 {
        begin_with_same_16(a, b) && begin_with_same_16(&a[a.len() - 16..], &b[b.len() - 16..])
    } else if a.len() < 64 {
        begin_with_same_32(a, b) && begin_with_same_32(&a[a.len() - 32..], &b[b.len() - 32..])
    } else {
        are_same_long(a, b)
    }
}

/// The same of lists of one length, 64 or more.
fn are_same_long(a: &[u8], b: &[u8]) -> bool
    requires as_long { length a.now ≡ length b.now }
    requires long { 64 ≤ length a.now }
    ensures { IsTrue result ↔ (a.now ≡ b.now) }
{
    let mut at = 0;
    while a.len() - at >= 64 {
        if !begin_with_same_64(&a[at..], &b[at..]) {
            return false;
        }
        at += 64;
    }
    begin_with_same_64(&a[a.len() - 64..], &b[b.len() - 64..])
}

/// Whether the first 64 bytes are the same.
#[inline(always)]
fn begin_with_same_64(a: &[u8], b: &[u8]) -> bool
    requires first { 64 ≤ length a.now }
    requires second { 64 ≤ length b.now }
    ensures { IsTrue result ↔ (take 64 a.now ≡ take 64 b.now) }
{
    u8x64::from_slice(a)
        .simd_ne(u8x64::from_slice(b))
        .to_bitmask()
        == 0
}

/// Whether the first 32 bytes are the same.
#[inline(always)]
fn begin_with_same_32(a: &[u8], b: &[u8]) -> bool
    requires first { 32 ≤ length a.now }
    requires second { 32 ≤ length b.now }
    ensures { IsTrue result ↔ (take 32 a.now ≡ take 32 b.now) }
{
    u8x32::from_slice(a)
        .simd_ne(u8x32::from_slice(b))
        .to_bitmask()
        == 0
}

/// Whether the first 16 bytes are the same.
#[inline(always)]
fn begin_with_same_16(a: &[u8], b: &[u8]) -> bool
    requires first { 16 ≤ length a.now }
    requires second { 16 ≤ length b.now }
    ensures { IsTrue result ↔ (take 16 a.now ≡ take 16 b.now) }
{
    u8x16::from_slice(a)
        .simd_ne(u8x16::from_slice(b))
        .to_bitmask()
        == 0
}
