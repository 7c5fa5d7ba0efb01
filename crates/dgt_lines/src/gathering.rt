//! Gathers bytes, to write them at once.

ghost use Rattle.std.specs.Prelude.{◌≡◌, ◌≢◌, ◌+◌, ◌*◌, ◌<◌, ◌≤◌, [], ◌∷◌, ◌++◌, false, length, take, OnOk, OnErr, IsTrue};
ghost use Rattle.hex.specs.Hex.{encode_lower};
ghost use Rattle.dgt_lines.specs.Lines.{padded_decimal};
ghost use Rattle.dgt_lines.specs.Marks.{Waits};
ghost use Rattle.dgt_lines.specs.Writing.{Writes, Gathers};

use crate::faults::RunFault;
use crate::streams::{Failed, Sink};
use std::marker::Model;

/// Writes all of these bytes, in as many writes as the sink asks for, without a flush.
pub fn put<W: Sink>(writer: &mut W, bytes: &[u8]) -> Result<(), RunFault>
    ensures output { Writes W.Sink writer.old writer.new result bytes.now }
    ensures no_flush { W.flushed writer.old ≡ false → W.flushed writer.new ≡ false }
    ensures unflushed { OnOk result (Waits bytes.now (W.flushed writer.old) →
        W.flushed writer.new ≡ false) }
{
    let mut at = 0;
    while at < bytes.len() {
        match writer.write_some(&bytes[at..]) {
            Ok(taken) => at += taken,
            Err(Failed) => return Err(RunFault::WriteFailed),
        }
    }
    Ok(())
}

/// Flushes the sink.
pub fn flush<W: Sink>(writer: &mut W) -> Result<(), RunFault>
    ensures output { Writes W.Sink writer.old writer.new result [] }
    ensures flushed { OnOk result (IsTrue (W.flushed writer.new)) }
    ensures same_flushed { OnErr result (W.flushed writer.new ≡ W.flushed writer.old) }
{
    match writer.flush_all() {
        Ok(()) => Ok(()),
        Err(Failed) => Err(RunFault::WriteFailed),
    }
}

/// Room for a line, except the bytes that a message carries.
pub(crate) const LINE_ROOM: usize = 134;

/// Up to `ROOM` bytes that wait to be written to a sink. Contracts see these bytes.
///
/// The store is an array, since [`push_prefix`](Outgoing::push_prefix) writes past the kept bytes.
#[derive(Drop)]
pub struct Outgoing<const ROOM: usize> {
    bytes: [u8; ROOM],
    len: usize,
}

impl<const ROOM: usize> Model for Outgoing<ROOM> {
    ghost use Rattle.std.specs.Prelude.{◌≡◌, ◌≤◌, ℕ, List, length, take};

    ghost Value = { List ℕ };

    ghost view = { λ outgoing. take outgoing.len outgoing.bytes };

    ghost invariant = { λ outgoing. (length outgoing.bytes ≡ ROOM) × (outgoing.len ≤ ROOM) };
}

impl<const ROOM: usize> Outgoing<ROOM> {
    /// No bytes.
    pub(crate) fn new() -> Self
        ensures { result ≡ [] }
    {
        Outgoing {
            bytes: [0; ROOM],
            len: 0,
        }
    }

    /// The number of gathered bytes that were not written yet.
    pub(crate) fn len(&self) -> usize
        ensures len { result ≡ length self.now }
        ensures limit { result ≤ ROOM }
    {
        self.len
    }

    /// The gathered bytes that were not written yet.
    pub(crate) fn bytes(&self) -> &[u8]
        ensures bytes { result.now ≡ self.now }
        ensures limit { length result.now ≤ ROOM }
    {
        &self.bytes[..self.len]
    }

    // The number of bytes that still fit.
    fn room(&self) -> usize
        ensures { result + length self.now ≡ ROOM }
    {
        ROOM - self.len
    }

    /// Writes all gathered bytes. After a refused write the rest of them is dropped.
    pub(crate) fn write_out<W: Sink>(&mut self, writer: &mut W) -> Result<(), RunFault>
        ensures output { Writes W.Sink writer.old writer.new result self.old }
        ensures empty { self.new ≡ [] }
        ensures no_flush { W.flushed writer.old ≡ false → W.flushed writer.new ≡ false }
        ensures unflushed { OnOk result (Waits self.old (W.flushed writer.old) →
            W.flushed writer.new ≡ false) }
    {
        let answer = put(writer, &self.bytes[..self.len]);
        self.len = 0;
        answer
    }

    /// Writes the gathered bytes, unless this number of bytes fits after them. After a refused
    /// write nothing is gathered.
    pub(crate) fn make_room<W: Sink>(
        &mut self,
        writer: &mut W,
        wanted: usize,
    ) -> Result<(), RunFault>
        requires { wanted ≤ ROOM }
        ensures output { Gathers W.Sink (self.old, self.new) writer.old writer.new
            result [] }
        ensures room { OnOk result (length self.new + wanted ≤ ROOM) }
        ensures dropped { OnErr result (self.new ≡ []) }
        ensures no_flush { W.flushed writer.old ≡ false → W.flushed writer.new ≡ false }
    {
        if self.room() < wanted {
            return self.write_out(writer);
        }
        Ok(())
    }

    /// Adds these bytes. If they don't fit, the gathered bytes are written first. After a refused
    /// write nothing is gathered.
    pub(crate) fn add<W: Sink>(&mut self, writer: &mut W, bytes: &[u8]) -> Result<(), RunFault>
        ensures output { Gathers W.Sink (self.old, self.new) writer.old writer.new
            result bytes.now }
        ensures dropped { OnErr result (self.new ≡ []) }
        ensures no_flush { W.flushed writer.old ≡ false → W.flushed writer.new ≡ false }
        ensures waits { OnOk result (bytes.now ≢ [] → Waits self.new (W.flushed writer.new)) }
    {
        if bytes.len() > self.room() {
            self.write_out(writer)?;
            if bytes.len() > self.room() {
                return put(writer, bytes);
            }
        }
        self.push(bytes);
        Ok(())
    }

    /// Adds these bytes, which fit.
    pub(crate) fn push(&mut self, bytes: &[u8])
        requires { length self.old + length bytes.now ≤ ROOM }
        ensures bytes { self.new ≡ self.old ++ bytes.now }
        ensures len { length self.new ≡ length self.old + length bytes.now }
    {
        let end = self.len + bytes.len();
        let all = &mut self.bytes[..];
        all[self.len..end].copy_from_slice(bytes);
        self.len = end;
    }

    /// Adds the first `len` of sixteen bytes. Passing and copying all of them by value is faster
    /// than copying fewer.
    pub(crate) fn push_prefix(&mut self, bytes: [u8; 16], len: usize)
        requires room { length self.old + 16 ≤ ROOM }
        requires within { len ≤ 16 }
        ensures bytes { self.new ≡ self.old ++ take len bytes }
        ensures len { length self.new ≡ length self.old + len }
    {
        let at = self.len;
        let all = &mut self.bytes[..];
        all[at..at + 16].copy_from_slice(&bytes);
        self.len = at + len;
    }

    /// Adds two hexadecimal digits for each byte.
    pub(crate) fn push_hex(&mut self, bytes: &[u8])
        requires { length self.old + 2 * length bytes.now ≤ ROOM }
        ensures bytes { self.new ≡ self.old ++ encode_lower bytes.now }
        ensures len { length self.new ≡ length self.old + 2 * length bytes.now }
    {
        for byte in bytes {
            self.push(&hex_digits(*byte));
        }
    }

    /// Adds a number in decimal, with leading zeros to at least `width` digits.
    #[inline(never)]
    pub(crate) fn push_decimal(&mut self, number: u64, width: usize)
        requires room { length self.old + 20 ≤ ROOM }
        requires some { 0 < width }
        requires fits { width ≤ 20 }
        ensures bytes { self.new ≡ self.old ++ padded_decimal width number }
        ensures len { length self.new ≤ length self.old + 20 }
    {
        if number < 10 && width == 1 {
            return self.push(&[b'0' + number as u8]);
        }
        let mut digits = [0; 20];
        let mut at = digits.len();
        let mut rest = number;
        while rest > 0 || digits.len() - at < width {
            at -= 1;
            digits[at] = b'0' + (rest % 10) as u8;
            rest /= 10;
        }
        self.push(&digits[at..]);
    }
}

/// A byte as two hexadecimal digits.
pub(crate) fn hex_digits(byte: u8) -> [u8; 2]
    ensures { result ≡ encode_lower (byte ∷ []) }
{
    let mut digits = [0; 2];
    hex::encode_to_slice([byte].as_slice(), &mut digits).unwrap();
    digits
}
