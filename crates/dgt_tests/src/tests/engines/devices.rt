//! Sources and sinks that record what passes, and fail on demand.

ghost use Rattle.std.specs.Prelude.{◌≤◌, IfOk, Some};

use arrayvec::ArrayVec;
use dgt_text::{Failed, Sink, Source};
use std::io;
use std::io::{Read, Write};

/// A source that returns at most `step` bytes a read, and refuses its read number `fails_at`.
#[derive(Drop)]
pub struct Lender<'a> {
    left: &'a [u8],
    step: usize,
    pub fails_at: u64,
    pub given: usize,
    pub failed: bool,
    pub ended: bool,
    pub reads: u64,
    pub late: bool,
}

impl<'a> Lender<'a> {
    pub fn new(left: &'a [u8], step: usize) -> Self {
        Lender {
            left,
            step,
            fails_at: 0,
            given: 0,
            failed: false,
            ended: false,
            reads: 0,
            late: false,
        }
    }
}

impl Source for Lender<'_> {
    ghost left = { λ lender. Some lender.left.now };

    ghost failed = { λ lender. lender.failed };

    ghost ended = { λ lender. lender.ended };

    ghost reads = { λ lender. lender.reads };

    ghost late = { λ lender. lender.late };

    fn read_some(&mut self, buffer: &mut [u8]) -> Result<usize, Failed> {
        self.reads = self.reads.saturating_add(1);
        self.late = self.late || self.failed || self.ended;
        if self.reads == self.fails_at {
            self.failed = true;
            return Err(Failed);
        }
        let given = self.left.len().min(buffer.len()).min(self.step.max(1));
        buffer[..given].copy_from_slice(&self.left[..given]);
        self.left = &self.left[given..];
        self.given = self.given.saturating_add(given);
        if given == 0 && !buffer.is_empty() {
            self.ended = true;
        }
        Ok(given)
    }
}

/// A sink that takes at most `step` bytes a write and `room` bytes in all. It refuses its write
/// number `write_fails_at` and its flush number `flush_fails_at`.
#[derive(Drop)]
pub struct Recorder {
    taken: ArrayVec<u8, 8192>,
    pub step: usize,
    pub room: usize,
    pub write_fails_at: u64,
    pub flush_fails_at: u64,
    pub writes: u64,
    pub flushes: u64,
    pub failed: bool,
    pub flushed: bool,
    pub late: bool,
}

impl Recorder {
    pub fn new() -> Self {
        Recorder {
            taken: ArrayVec::new(),
            step: usize::MAX,
            room: usize::MAX,
            write_fails_at: 0,
            flush_fails_at: 0,
            writes: 0,
            flushes: 0,
            failed: false,
            flushed: true,
            late: false,
        }
    }

    pub fn taken(&self) -> &[u8] {
        self.taken.as_slice()
    }
}

impl Sink for Recorder {
    ghost written = { λ recorder. Some recorder.taken.items };

    ghost failed = { λ recorder. recorder.failed };

    ghost flushed = { λ recorder. recorder.flushed };

    ghost late = { λ recorder. recorder.late };

    fn write_some(&mut self, bytes: &[u8]) -> Result<usize, Failed> {
        self.writes = self.writes.saturating_add(1);
        self.late = self.late || self.failed;
        let room = self.room.saturating_sub(self.taken.len());
        let taken = bytes.len().min(room).min(self.step.max(1));
        if self.writes == self.write_fails_at
            || (taken == 0 && !bytes.is_empty())
            || self.taken.try_extend_from_slice(&bytes[..taken]).is_err()
        {
            self.failed = true;
            return Err(Failed);
        }
        if taken > 0 {
            self.flushed = false;
        }
        Ok(taken)
    }

    fn flush_all(&mut self) -> Result<(), Failed> {
        self.flushes = self.flushes.saturating_add(1);
        self.late = self.late || self.failed;
        if self.flushes == self.flush_fails_at {
            self.failed = true;
            return Err(Failed);
        }
        self.flushed = true;
        Ok(())
    }
}

/// A standard-library reader and writer that counts its calls. It fails at each with this kind of
/// error, or reads zeros and takes bytes forever, at most `most` a call.
#[derive(Drop)]
pub struct Counter {
    refusal: Option<io::ErrorKind>,
    most: usize,
    pub reads: u64,
    pub writes: u64,
    pub flushes: u64,
}

impl Counter {
    pub fn new(most: usize) -> Self {
        Counter {
            refusal: None,
            most,
            reads: 0,
            writes: 0,
            flushes: 0,
        }
    }

    pub fn refusing(kind: io::ErrorKind) -> Self {
        let mut counter = Counter::new(0);
        counter.refusal = Some(kind);
        counter
    }

    fn answer(&self, asked: usize) -> io::Result<usize>
        ensures { IfOk result (λ moved. moved ≤ asked) }
    {
        match self.refusal {
            Some(kind) => Err(io::Error::from(kind)),
            None => Ok(asked.min(self.most)),
        }
    }
}

impl Read for Counter {
    fn read(&mut self, buf: &mut [u8]) -> io::Result<usize> {
        self.reads = self.reads.saturating_add(1);
        buf.fill(0);
        self.answer(buf.len())
    }
}

impl Write for Counter {
    fn write(&mut self, buf: &[u8]) -> io::Result<usize> {
        self.writes = self.writes.saturating_add(1);
        self.answer(buf.len())
    }

    fn flush(&mut self) -> io::Result<()> {
        self.flushes = self.flushes.saturating_add(1);
        self.answer(0)?;
        Ok(())
    }
}

/// A standard-library reader and writer that moves one byte a call. Each call, including each
/// flush, is interrupted `times` times before it succeeds.
#[derive(Drop)]
pub struct Trickle<'a> {
    left: &'a [u8],
    pub taken: ArrayVec<u8, 256>,
    times: u32,
    waits: u32,
    pub flushes: u64,
}

impl<'a> Trickle<'a> {
    pub fn new(left: &'a [u8], times: u32) -> Self {
        Trickle {
            left,
            taken: ArrayVec::new(),
            times,
            waits: times,
            flushes: 0,
        }
    }

    fn wait(&mut self) -> io::Result<()> {
        if self.waits > 0 {
            self.waits -= 1;
            return Err(io::Error::from(io::ErrorKind::Interrupted));
        }
        self.waits = self.times;
        Ok(())
    }
}

impl Read for Trickle<'_> {
    fn read(&mut self, buf: &mut [u8]) -> io::Result<usize> {
        self.wait()?;
        let given = self.left.len().min(buf.len()).min(1);
        buf[..given].copy_from_slice(&self.left[..given]);
        self.left = &self.left[given..];
        Ok(given)
    }
}

impl Write for Trickle<'_> {
    fn write(&mut self, buf: &[u8]) -> io::Result<usize> {
        self.wait()?;
        let taken = buf.len().min(1);
        if self.taken.try_extend_from_slice(&buf[..taken]).is_err() {
            return Err(io::Error::from(io::ErrorKind::Other));
        }
        Ok(taken)
    }

    fn flush(&mut self) -> io::Result<()> {
        self.wait()?;
        self.flushes = self.flushes.saturating_add(1);
        Ok(())
    }
}

/// A standard-library reader that returns a zero at every second call, forever, and is interrupted
/// at the others.
#[derive(Drop)]
pub struct Stutterer {
    pub calls: u64,
}

impl Stutterer {
    pub fn new() -> Self {
        Stutterer { calls: 0 }
    }
}

impl Read for Stutterer {
    fn read(&mut self, buf: &mut [u8]) -> io::Result<usize> {
        self.calls = self.calls.saturating_add(1);
        if self.calls % 2 == 1 {
            return Err(io::Error::from(io::ErrorKind::Interrupted));
        }
        match buf.first_mut() {
            Some(first) => {
                *first = 0;
                Ok(1)
            }
            None => Ok(0),
        }
    }
}
