//! The standard library's readers and writers as sources and sinks.

ghost use Rattle.std.specs.Prelude.{◌≤◌, length, IfOk};
ghost use Rattle.std.specs.Io.KnownBytes.{Keeps, ReadConsumes, WriteAppends};
ghost use Rattle.dgt_lines.specs.Device.{IsSettled};

use crate::streams::{Failed, Sink, Source};
use std::fmt::Display;
use std::io::{self, ErrorKind, Read, Write};

// How often a call that is interrupted each time is made, at most.
const MAX_TRIES: u32 = 1 << 20;

// What a call of a reader or a writer returned, or nothing if it was interrupted.
fn settled<V>(given: io::Result<V>) -> Option<Result<V, Failed>>
    ensures { IsSettled given result }
{
    match given {
        Ok(value) => Some(Ok(value)),
        Err(error) if error.kind() == ErrorKind::Interrupted => None,
        Err(_) => Some(Err(Failed)),
    }
}

// A read, made again if it is interrupted.
fn read_retrying<T: Read>(reader: &mut T, buffer: &mut [u8]) -> Result<usize, Failed>
    ensures bound { IfOk result (λ n. n ≤ length buffer.new) }
    ensures bytes { ReadConsumes (T.remaining reader.old) (T.remaining reader.new) result
        buffer.new }
{
    for _ in 0..MAX_TRIES {
        if let Some(result) = settled(reader.read(buffer)) {
            return result;
        }
    }
    Err(Failed)
}

// A write, made again if it is interrupted.
fn write_retrying<T: Write>(writer: &mut T, bytes: &[u8]) -> Result<usize, Failed>
    ensures bound { IfOk result (λ n. n ≤ length bytes.now) }
    ensures bytes { WriteAppends (T.contents writer.old) (T.contents writer.new) result bytes.now }
{
    for _ in 0..MAX_TRIES {
        if let Some(result) = settled(writer.write(bytes)) {
            return result;
        }
    }
    Err(Failed)
}

// A flush, made again if it is interrupted.
fn flush_retrying<T: Write>(writer: &mut T) -> Result<(), Failed>
    ensures { Keeps (T.contents writer.old) (T.contents writer.new) }
{
    for _ in 0..MAX_TRIES {
        if let Some(result) = settled(writer.flush()) {
            return result;
        }
    }
    Err(Failed)
}

/// A source or a sink over any reader or writer of the standard library.
///
/// It keeps its marks and its count, and states the bytes that the reader or the writer states. It
/// refuses a call if the reader or the writer fails, or if the writer takes none of the given
/// bytes.
///
/// A call that returns `ErrorKind::Interrupted`, for example after a signal, moved no bytes and is
/// made again, as `read_to_end` and `write_all` do. So a run continues after signals, and counts
/// one read. A call that is interrupted 2^20 times in a row is refused, so that it always returns.
#[derive(Drop)]
pub struct Device<T> {
    inner: T,
    failed: bool,
    ended: bool,
    reads: u64,
    flushed: bool,
    late: bool,
}

impl<T> Device<T> {
    ghost use Rattle.dgt_lines.specs.Device.{IsNewDevice};

    /// A device that has not failed or ended, was not read and has nothing to flush.
    pub fn new(inner: T) -> Self
        ensures { IsNewDevice result inner }
    {
        Device {
            inner,
            failed: false,
            ended: false,
            reads: 0,
            flushed: true,
            late: false,
        }
    }
}

impl<T: Write> Device<T> {
    ghost use Rattle.std.specs.Prelude.{◌≡◌, IfSome, IsTrue, OnErr, OnOk, false};
    ghost use Rattle.std.specs.Io.KnownBytes.{Appends};
    ghost use Rattle.dgt_lines.specs.Device.{device_failed, device_flushed, device_inner, device_late};

    /// Writes a text, without a flush. Any failure counts as a refusal, and may come after a part
    /// of the text.
    pub fn print<D: Display>(&mut self, text: &D) -> Result<(), Failed>
        ensures printed { OnOk result (IfSome (D.output text.now)
            (Appends (T.contents (device_inner self.old)) (T.contents (device_inner self.new)))) }
        ensures refused { OnErr result (IsTrue (device_failed self.new)) }
        ensures not_refused { OnOk result (device_failed self.new ≡ device_failed self.old) }
        ensures unflushed { device_flushed self.new ≡ false }
        ensures in_time { device_failed self.old ≡ false →
            device_late self.new ≡ device_late self.old }
        ensures after_refusal { IsTrue (device_failed self.old) → IsTrue (device_late self.new) }
    {
        self.late = self.late || self.failed;
        self.flushed = false;
        match write!(self.inner, "{text}") {
            Ok(()) => Ok(()),
            Err(_) => {
                self.failed = true;
                Err(Failed)
            }
        }
    }
}

impl<T: Read> Source for Device<T> {
    ghost use Rattle.dgt_lines.specs.Device.{device_ended, device_failed, device_inner, device_late, device_reads};

    ghost left = { λ device. T.remaining (device_inner device) };

    ghost failed = { device_failed };

    ghost ended = { device_ended };

    ghost reads = { device_reads };

    ghost late = { device_late };

    fn read_some(&mut self, buffer: &mut [u8]) -> Result<usize, Failed> {
        self.reads = self.reads.saturating_add(1);
        self.late = self.late || self.failed || self.ended;
        match read_retrying(&mut self.inner, buffer) {
            Ok(given) => {
                if given == 0 && !buffer.is_empty() {
                    self.ended = true;
                }
                Ok(given)
            }
            Err(Failed) => {
                self.failed = true;
                Err(Failed)
            }
        }
    }
}

impl<T: Write> Sink for Device<T> {
    ghost use Rattle.dgt_lines.specs.Device.{device_failed, device_flushed, device_inner, device_late};

    ghost written = { λ device. T.contents (device_inner device) };

    ghost failed = { device_failed };

    ghost flushed = { device_flushed };

    ghost late = { device_late };

    fn write_some(&mut self, bytes: &[u8]) -> Result<usize, Failed> {
        self.late = self.late || self.failed;
        match write_retrying(&mut self.inner, bytes) {
            Ok(taken) if taken > 0 => {
                self.flushed = false;
                Ok(taken)
            }
            Ok(_) if bytes.is_empty() => Ok(0),
            _ => {
                self.failed = true;
                Err(Failed)
            }
        }
    }

    fn flush_all(&mut self) -> Result<(), Failed> {
        self.late = self.late || self.failed;
        match flush_retrying(&mut self.inner) {
            Ok(()) => {
                self.flushed = true;
                Ok(())
            }
            Err(Failed) => {
                self.failed = true;
                Err(Failed)
            }
        }
    }
}
