//! Whole runs of the program with streams in memory: refused writes, and long inputs.
//! `tests/program/rows` compares all other output.
//!
//! Each row is a call: the same rows in an array take ten times as long to prove.

use crate::run_words;
use dgt_link::WorldFault;
use dgt_program::Fault;
use dgt_text::{Device, RunFault};
use std::alloc::{AllocError, Global};
use std::io;
use std::io::{Cursor, Read, Write, sink};
use std::process::Abort;
use std::test::Fail;

/// Room for all that a run writes, so that the writers take no memory.
const ROOM: usize = 8192;

/// More reads than 2^20, and whole texts of five bytes.
const READS: usize = 5 * 209_716;

// The words of a line, separated by single spaces.
fn words(alloc: Global, line: &str) -> Result<Vec<String>, AllocError> {
    line.split(' ')
        .map(|word| word.to_string(alloc))
        .try_collect(alloc)
}

/// A writer that takes `room` bytes, and then refuses each write. It refuses each flush unless
/// `flushes` is true.
#[derive(Drop)]
struct Taking<'a> {
    taken: &'a mut Vec<u8>,
    room: usize,
    flushes: bool,
}

impl Write for Taking<'_> {
    fn write(&mut self, buf: &[u8]) -> io::Result<usize> {
        let count = self.room.min(buf.len());
        if count == 0 && !buf.is_empty() {
            return Err(io::Error::from(io::ErrorKind::Other));
        }
        self.taken.extend_from_slice(&buf[..count])?;
        self.room -= count;
        Ok(count)
    }

    fn flush(&mut self) -> io::Result<()> {
        if self.flushes {
            Ok(())
        } else {
            Err(io::Error::from(io::ErrorKind::Other))
        }
    }
}

// Asserts that a run ended with this status and these errors.
fn assert_ended(rt: &impl Abort, what: &str, ended: (u8, &[u8]), right: (u8, &str)) {
    let (status, errors) = right;
    assert_eq!(rt; ended, (status, errors.as_bytes()), "end of {what}");
}

// Runs the words of a line, and asserts that a write or flush is refused once `output` was taken.
fn check_refused(
    rt: &(impl Abort + AllocGlobal),
    line: &str,
    input: &[u8],
    room: usize,
    flushes: bool,
    output: &str,
) -> Result<(), Fail> {
    let alloc = rt.alloc();
    let mut taken = Vec::with_capacity(alloc, ROOM)?;
    let mut errors = Vec::with_capacity(alloc, ROOM)?;
    let taking = Taking {
        taken: &mut taken,
        room,
        flushes,
    };
    let words = words(alloc, line)?;
    let status = run_words(alloc, words, Cursor::new(input), taking, &mut errors);
    assert!(rt; taken.as_slice() == output.as_bytes(), "output of {line}");
    let ended = (status, errors.as_slice());
    assert_ended(rt, line, ended, (1, "dgt: write failed\n"));
    Ok(())
}

#[test]
fn stops_at_a_refused_write(rt: HostRuntime) -> Result<(), Fail> {
    let strays: &[u8] = &[0x8e, 0x00, 0x02, 0x05];
    let line = "00000003 badlength\n";
    check_refused(&rt, "dgt show 8e000205", b"", 0, true, "")?;
    check_refused(&rt, "dgt show 8e000205", b"", 9, true, "00000003 ")?;
    check_refused(&rt, "dgt show 8e000205", b"", 19, true, line)?;
    check_refused(&rt, "dgt monitor", strays, 9, true, "00000003 ")?;
    let named = "00000005 trademark 4447: D";
    check_refused(&rt, "dgt show --names 9200054447", b"", 26, true, named)?;
    check_refused(&rt, "dgt commands", b"\x42", 9, true, "00000001 ")?;
    check_refused(&rt, "dgt board", b"\x45", 0, true, "")?;
    check_refused(&rt, "dgt ask dump version", b"", 0, true, "")?;
    check_refused(&rt, "dgt ask dump version", b"", 1, true, "B")?;
    check_refused(&rt, "dgt ask dump --help", b"", 6, true, "Writes")?;
    check_refused(&rt, "dgt simulate", b"send\nsend\n", 4, true, "noth")?;
    check_refused(&rt, "dgt simulate", b"send\nsend\n", 8, true, "nothing\n")?;
    let faults = "dgt simulate --faults";
    check_refused(&rt, faults, b"boardlost\n", 4, true, "done")?;
    check_refused(&rt, "dgt --help", b"", 5, true, "Reads")
}

#[test]
fn stops_at_a_refused_flush(rt: HostRuntime) -> Result<(), Fail> {
    let strays: &[u8] = &[0x8e, 0x00, 0x02, 0x05];
    let lines = "00000003 badlength\n00000004 stray 05\n";
    check_refused(&rt, "dgt show 8e000205", b"", ROOM, false, lines)?;
    check_refused(&rt, "dgt monitor", strays, ROOM, false, lines)?;
    check_refused(&rt, "dgt monitor --names", strays, ROOM, false, lines)?;
    check_refused(&rt, "dgt commands", b"\x42", ROOM, false, "00000001 dump\n")?;
    check_refused(&rt, "dgt ask dump version", b"", ROOM, false, "BM")?;
    let outcomes = "nothing\nnothing\n";
    check_refused(&rt, "dgt simulate", b"send\nsend\n", ROOM, false, outcomes)?;
    check_refused(&rt, "dgt simulate", b"sned\n", ROOM, false, "")?;
    check_refused(&rt, "dgt show --help", b"", 0, false, "")
}

/// A reader that gives these bytes again and again, one a read, until it gave `READS` of them.
#[derive(Drop)]
struct Dripping {
    bytes: &'static [u8; 5],
    given: usize,
}

impl Read for Dripping {
    fn read(&mut self, buf: &mut [u8]) -> io::Result<usize> {
        let Some(first) = buf.first_mut() else {
            return Ok(0);
        };
        if self.given >= READS {
            return Ok(0);
        }
        *first = self.bytes[self.given % 5];
        self.given += 1;
        Ok(1)
    }
}

const FIELD: &[u8; 5] = b"\x8e\x00\x05\x24\x01";

const BEEP: &[u8; 5] = b"\x2b\x03\x03\x09\x00";

// Runs the words of a line over a million reads of one byte, to their end.
fn check_long(
    rt: &(impl Abort + AllocGlobal),
    line: &str,
    bytes: &'static [u8; 5],
) -> Result<(), Fail> {
    let input = Dripping { bytes, given: 0 };
    let mut errors = Vec::with_capacity(rt.alloc(), ROOM)?;
    let words = words(rt.alloc(), line)?;
    let status = run_words(rt.alloc(), words, input, sink(), &mut errors);
    assert_ended(rt, line, (status, errors.as_slice()), (0, ""));
    Ok(())
}

#[test]
fn reads_on_after_a_million_reads(rt: HostRuntime) -> Result<(), Fail> {
    check_long(&rt, "dgt monitor", FIELD)?;
    check_long(&rt, "dgt commands", BEEP)?;
    check_long(&rt, "dgt board", BEEP)
}

#[test]
fn plays_on_after_a_million_reads(rt: HostRuntime) -> Result<(), Fail> {
    check_long(&rt, "dgt simulate", b"send\n")?;
    check_long(&rt, "dgt simulate --faults", b"send\n")
}

#[test]
fn shows_pictures_after_a_million_reads(rt: HostRuntime) -> Result<(), Fail> {
    check_long(&rt, "dgt picture", FIELD)?;
    check_long(&rt, "dgt picture --doubt", FIELD)?;
    check_long(&rt, "dgt picture --clock", FIELD)?;
    check_long(&rt, "dgt picture --doubt --clock", FIELD)
}

// Reports a fault, and compares the status and the text.
fn check_reported(
    rt: &(impl Abort + AllocGlobal),
    fault: Fault,
    status: u8,
    text: &str,
) -> Result<(), Fail> {
    let mut errors = Vec::with_capacity(rt.alloc(), ROOM)?;
    let reported = fault.report(&mut Device::new(&mut errors));
    assert_ended(rt, text, (reported, errors.as_slice()), (status, text));
    Ok(())
}

#[test]
fn reports_what_no_run_here_meets(rt: HostRuntime) -> Result<(), Fail> {
    let turns = Fault::from(RunFault::TooManyTurns);
    check_reported(&rt, turns, 1, "dgt: too many turns\n")?;
    let small = Fault::from(WorldFault::LineTooSmall);
    check_reported(&rt, small, 2, "dgt: a line is too small\n")?;
    let refused = Fault::from(WorldFault::OutOfMemory);
    check_reported(&rt, refused, 3, "dgt: out of memory\n")?;
    check_reported(&rt, Fault::OutOfMemory, 3, "dgt: out of memory\n")
}
