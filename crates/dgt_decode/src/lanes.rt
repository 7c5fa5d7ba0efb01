//! Searches for the next byte that begins a message, `LANES` bytes at a time.

ghost use Rattle.std.specs.Prelude.{◌≡◌, ◌≤◌, length, map, take};
ghost use Rattle.std.specs.List.{position_or_len};
ghost use Rattle.std.specs.Simd.Lanes.{mask_l};
ghost use Rattle.dgt_decode.specs.Grammar.{has_top_bit};

use crate::header::TOP_BIT;
use std::simd::prelude::*;

// How many bytes are compared at once.
const LANES: usize = 32;

/// How many bytes `first_top_of_few` looks at.
pub const FEW: usize = 8;

/// The index of the first byte with a set top bit, or the length if there is none.
pub fn first_top(bytes: &[u8]) -> usize
    ensures { result ≡ position_or_len has_top_bit bytes.now }
{
    let mut at = 0;
    while bytes.len() - at >= LANES {
        let run = first_top_lane(u8x32::from_slice(&bytes[at..]));
        if run < LANES {
            return at + run;
        }
        at += LANES;
    }
    if bytes.len() >= LANES {
        let last = bytes.len() - LANES; // Most of the last lanes may have been looked at already.
        return last + first_top_lane(u8x32::from_slice(&bytes[last..]));
    }
    'tail: while at < bytes.len() && bytes[at] < TOP_BIT {
        at += 1;
    }
    at
}

/// The index of the first of `FEW` bytes with a set top bit, or `FEW` if there is none.
#[inline(always)]
pub fn first_top_of_few(bytes: &[u8]) -> usize
    requires { FEW ≤ length bytes.now }
    ensures { result ≡ position_or_len has_top_bit (take FEW bytes.now) }
{
    let tops = few_top_bits(u8x8::from_slice(bytes));
    if tops == 0 {
        FEW
    } else {
        tops.trailing_zeros() as usize
    }
}

// The first lane with a set top bit, or the number of lanes if there is none.
#[inline(always)]
fn first_top_lane(lanes: u8x32) -> usize
    ensures value { result ≡ position_or_len has_top_bit lanes }
    ensures within { result ≤ LANES }
{
    let tops = top_bits(lanes);
    if tops == 0 {
        LANES
    } else {
        tops.trailing_zeros() as usize
    }
}

// The lanes' top bits, that of the first lane lowest.
#[inline(always)]
fn top_bits(lanes: u8x32) -> u64
    ensures { result ≡ mask_l (map has_top_bit lanes) }
{
    lanes.simd_ge(u8x32::splat(TOP_BIT)).to_bitmask()
}

#[inline(always)]
fn few_top_bits(lanes: u8x8) -> u64
    ensures { result ≡ mask_l (map has_top_bit lanes) }
{
    lanes.simd_ge(u8x8::splat(TOP_BIT)).to_bitmask()
}
