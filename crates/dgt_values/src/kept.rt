//! A buffer of fixed size.

ghost use Rattle.std.specs.Prelude.{◌≡◌, ◌≤◌, ◌<◌, ◌+◌, [], ◌∷◌, ◌++◌, length, min, take};
ghost use Rattle.dgt_values.specs.Bytes.{AreSevenBit};

use std::marker::Model;
use std::simd::prelude::*;

// An `ArrayVec` would overwrite each byte that is removed, so this is an array and a length.

// Up to this many bytes are copied in one step, with the bytes after them if there are any.
const FEW: usize = 8;

// Of many bytes, this number is looked at and copied in one step, in two halves.
const BLOCK: usize = 128;

const HALF: usize = 64;

/// At most `ROOM` bytes, stored in the value itself. Decoders keep the bytes of a message or a
/// frame in it. Removed bytes stay in memory until new ones overwrite them.
#[derive(Drop)]
pub struct Kept<const ROOM: usize> {
    bytes: [u8; ROOM],
    len: usize,
}

impl<const ROOM: usize> Model for Kept<ROOM> {
    ghost use Rattle.std.specs.Prelude.{◌≤◌, ℕ, List, take};

    ghost Value = { List ℕ };

    ghost view = { λ kept. take kept.len kept.bytes };

    ghost invariant = { λ kept. kept.len ≤ ROOM };
}

impl<const ROOM: usize> Kept<ROOM> {
    /// An empty buffer.
    pub fn new() -> Self
        ensures { result ≡ [] }
    {
        Kept {
            bytes: [0; ROOM],
            len: 0,
        }
    }

    /// How many bytes are kept.
    pub fn len(&self) -> usize
        ensures { result ≡ length self.now }
    {
        self.len
    }

    /// The bytes, in the order in which they were added.
    pub fn as_slice(&self) -> &[u8]
        ensures { result.now ≡ self.now }
    {
        &self.bytes[..self.len]
    }

    /// Removes all bytes.
    pub fn clear(&mut self)
        ensures { self.new ≡ [] }
    {
        self.len = 0;
    }

    /// Appends the byte if there is room for it.
    pub fn push(&mut self, byte: u8)
        ensures kept { length self.old < ROOM → self.new ≡ self.old ++ byte ∷ [] }
        ensures full { ROOM ≤ length self.old → self.new ≡ self.old }
    {
        if self.len < ROOM {
            self.bytes[self.len] = byte;
            self.len += 1;
        }
    }

    /// Appends the bytes if there is room for all of them.
    pub fn append(&mut self, bytes: &[u8])
        ensures kept { length self.old + length bytes.now ≤ ROOM
            → self.new ≡ self.old ++ bytes.now }
        ensures full { ROOM < length self.old + length bytes.now → self.new ≡ self.old }
    {
        if bytes.len() <= ROOM - self.len {
            let end = self.len + bytes.len();
            let all = &mut self.bytes[..];
            all[self.len..end].copy_from_slice(bytes);
            self.len = end;
        }
    }

    /// Appends bytes in blocks of 128, up to the first block with a set top bit or without room.
    /// Returns how many bytes it appended. The contract leaves that number open: pass the others to
    /// [`Kept::append`].
    pub fn append_blocks(&mut self, bytes: &[u8]) -> usize
        ensures within { result ≤ length bytes.now }
        ensures seven_bit { AreSevenBit (take result bytes.now) }
        ensures kept { self.new ≡ self.old ++ take result bytes.now }
    {
        let start = self.len;
        let most = bytes.len().min(ROOM - start);
        let mut at = 0;
        while most - at >= BLOCK {
            let low = u8x64::from_slice(&bytes[at..]);
            let high = u8x64::from_slice(&bytes[at + HALF..]);
            if top_bits(low) != 0 || top_bits(high) != 0 {
                break;
            }
            let all = &mut self.bytes[..];
            low.copy_to_slice(&mut all[start + at..]);
            high.copy_to_slice(&mut all[start + at + HALF..]);
            at += BLOCK;
        }
        self.len = start + at;
        at
    }

    /// Keeps the first `len` of these bytes, or as many as there are and fit, and removes all
    /// earlier ones.
    pub fn set_prefix(&mut self, bytes: &[u8], len: usize)
        ensures { self.new ≡ take (min len ROOM) bytes.now }
    {
        let len = len.min(ROOM).min(bytes.len());
        if len <= FEW && bytes.len() >= FEW && ROOM >= FEW {
            u8x8::from_slice(bytes).copy_to_slice(&mut self.bytes);
        } else {
            self.bytes[..len].copy_from_slice(&bytes[..len]);
        }
        self.len = len;
    }
}

// The lanes' top bits, the first lane's lowest.
#[inline(always)]
fn top_bits(lanes: u8x64) -> u64
    ensures { result ≡ 0 → AreSevenBit lanes }
{
    lanes.simd_ge(u8x64::splat(128)).to_bitmask()
}
