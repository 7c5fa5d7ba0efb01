//! Refused lines, and standard-library readers and writers that fail or are interrupted.

use crate::tests::asserting::{assert_row, assert_that};
use crate::tests::engines::devices::{Counter, Recorder, Trickle};
use crate::tests::engines::engine::{Answer, Engine};
use crate::tests::fixtures::*;
use arrayvec::ArrayVec;
use dgt_decode::Event;
use dgt_text::{Bytes, Device, RunFault, Source, monitor, write_event};
use std::alloc::AllocGlobal;
use std::io::ErrorKind;
use std::process::Abort;
use std::test::Fail;

const WRITE_FAILED: Answer = Err(RunFault::WriteFailed);

const READ_FAILED: Answer = Err(RunFault::ReadFailed);

// Whether the sink takes this prefix of the line, and is not called after its refusal.
fn is_refused(mut sink: Recorder, prefix: &[u8]) -> bool {
    write_event(&mut sink, 123456789, &Event::Stray(0x05)) == WRITE_FAILED
        && sink.taken() == prefix
        && sink.failed
        && !sink.late
}

#[test]
fn a_line_that_is_refused_at_each_byte(rt: HostRuntime) {
    let line = b"123456789 stray 05\n";
    for at in 0..line.len() {
        let mut full = Recorder::new();
        full.room = at;
        assert_that(&rt, is_refused(full, &line[..at]), "a full sink");
        // one byte a write, so that the write after these bytes is the one that fails
        let mut refusing = Recorder::new();
        refusing.step = 1;
        refusing.write_fails_at = at as u64 + 1;
        assert_that(&rt, is_refused(refusing, &line[..at]), "a refused write");
    }
}

// The runs in which reads and writes of std fail.
const TRIED: [(Engine<'static>, &[u8]); 6] = [
    (Engine::Monitor, &E4_FIELD),
    (Engine::Picture(false, false), &START_DUMP),
    (Engine::Log, &[0x8f, 0x00, 0x04, 0x6b]),
    (Engine::Commands, &BEEP),
    (Engine::Serve(&[]), &[0x4d]),
    (Engine::Simulate, b"send\n"),
];

#[test]
fn readers_and_writers_of_std_that_fail(rt: HostRuntime) -> Result<(), Fail> {
    let alloc = rt.alloc();
    for (row, (engine, bytes)) in TRIED.iter().enumerate() {
        // a writer that takes no bytes, and one that fails
        let mut full = Device::new(Counter::new(0));
        let answer = engine.run(alloc, &mut Bytes::new(bytes), &mut full, 10)?;
        assert_row(&rt, row, answer, WRITE_FAILED);
        let mut broken = Device::new(Counter::refusing(ErrorKind::Other));
        let answer = engine.run(alloc, &mut Bytes::new(bytes), &mut broken, 10)?;
        assert_row(&rt, row, answer, WRITE_FAILED);
        let mut sink = Recorder::new();
        let mut broken = Device::new(Counter::refusing(ErrorKind::Other));
        let answer = engine.run(alloc, &mut broken, &mut sink, 10)?;
        assert_row(&rt, row, answer, READ_FAILED);
        assert_that(&rt, sink.taken().is_empty(), "nothing is written");
    }
    Ok(())
}

#[test]
fn a_reader_that_never_ends(rt: HostRuntime) {
    let mut sink = Recorder::new();
    let answer = monitor(&mut Device::new(Counter::new(1)), &mut sink, 3);
    assert_row(&rt, 0, answer, Err(RunFault::TooManyTurns));
    let lines = b"00000001 stray 00\n00000002 stray 00\n00000003 stray 00\n".as_slice();
    assert_row(&rt, 0, sink.taken(), lines);
}

// The engine, its input and the turns; the result, the output, and the number of flushes, if they
// are counted. A call moves one byte. The turns show that a repeated call counts as one read.
type Interrupted = (
    Engine<'static>,
    &'static [u8],
    u32,
    Answer,
    &'static [&'static [u8]],
    Option<u64>,
);

const INTERRUPTED: [Interrupted; 3] = [
    (Engine::Monitor, &E4_FIELD, 6, Ok(()), &[E4_LINE], Some(5)),
    (
        Engine::Serve(&[]),
        &[0x4d, 0x42],
        3,
        Ok(()),
        &[&VERSION, &START_DUMP],
        Some(3),
    ),
    (
        Engine::Simulate,
        b"send\nsned\n",
        11,
        Err(RunFault::BadLine { line: 2, at: 0 }),
        &[b"nothing\n"],
        None,
    ),
];

// The concatenation of these parts.
fn joined(parts: &[&[u8]]) -> Result<ArrayVec<u8, 512>, Fail> {
    let mut bytes = ArrayVec::new();
    for part in parts {
        bytes.try_extend_from_slice(part)?;
    }
    Ok(bytes)
}

fn assert_interrupted(
    rt: &(impl Abort + AllocGlobal),
    row: usize,
    run: &Interrupted,
    times: u32,
) -> Result<(), Fail> {
    let (engine, bytes, limit, answer, lines, flushes) = *run;
    let mut reader = Device::new(Trickle::new(bytes, times));
    let mut taken = Trickle::new(&[], times);
    let answered = engine.run(rt.alloc(), &mut reader, &mut Device::new(&mut taken), limit)?;
    assert_row(rt, row, answered, answer);
    assert_row(rt, row, taken.taken.as_slice(), joined(lines)?.as_slice());
    assert_row(rt, row, taken.flushes, flushes.unwrap_or(taken.flushes));
    Ok(())
}

#[test]
fn readers_and_writers_of_std_that_are_interrupted(rt: HostRuntime) -> Result<(), Fail> {
    for times in [0, 1, 3] {
        for (row, run) in INTERRUPTED.iter().enumerate() {
            assert_interrupted(&rt, row, run, times)?;
        }
    }
    Ok(())
}

#[test]
fn a_call_that_is_interrupted_for_ever(rt: HostRuntime) {
    let mut reader = Device::new(Trickle::new(&E4_FIELD, u32::MAX));
    assert_that(
        &rt,
        reader.read_some(&mut [0; 8]).is_err(),
        "a read that fails",
    );
    let mut sink = Recorder::new();
    assert_row(&rt, 0, monitor(&mut reader, &mut sink, 10), READ_FAILED);
    let mut taken = Trickle::new(&[], u32::MAX);
    let answer = monitor(&mut Bytes::new(&E4_FIELD), &mut Device::new(&mut taken), 10);
    assert_row(&rt, 1, answer, WRITE_FAILED);
    assert_that(&rt, taken.taken.is_empty(), "nothing is written");
}
