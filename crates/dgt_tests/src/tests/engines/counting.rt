//! Standard-library readers and writers that count their calls, wrapped as devices.

use crate::tests::asserting::assert_row;
use crate::tests::engines::devices::{Counter, Lender, Recorder, Stutterer};
use crate::tests::engines::engine::Engine;
use crate::tests::fixtures::*;
use arrayvec::ArrayVec;
use dgt_command::{Command, CommandEvent};
use dgt_decode::Event;
use dgt_lines::{format_event, write_closing, write_command, write_unfinished};
use dgt_text::{Device, Failed, Sink, Source, write_event};
use dgt_values::Position;
use std::io::{Cursor, ErrorKind};
use std::test::Fail;

const KINDS: [ErrorKind; 5] = [
    ErrorKind::Other,
    ErrorKind::UnexpectedEof,
    ErrorKind::WouldBlock,
    ErrorKind::TimedOut,
    ErrorKind::BrokenPipe,
];

// More reads than the number of tries for an interrupted call.
const READS: u64 = (1 << 20) + 16;

// Reads one byte `times` times, and returns how many bytes were read before a refusal.
fn bytes_read(source: &mut impl Source, times: u64) -> u64 {
    let mut buffer = [1];
    let mut came = 0u64;
    for _ in 0..times {
        match source.read_some(&mut buffer) {
            Ok(given) => came = came.saturating_add(given as u64),
            Err(Failed) => return came,
        }
    }
    came
}

#[test]
fn a_device_reads_on_after_a_million_interrupted_reads(rt: HostRuntime) {
    let mut reader = Stutterer::new();
    let came = bytes_read(&mut Device::new(&mut reader), READS);
    assert_row(&rt, 0, (came, reader.calls), (READS, 2 * READS));
}

#[test]
fn a_device_that_fails_is_called_once(rt: HostRuntime) {
    for (row, kind) in KINDS.iter().enumerate() {
        let mut counter = Counter::refusing(*kind);
        let mut device = Device::new(&mut counter);
        assert_row(&rt, row, device.read_some(&mut [0; 8]), Err(Failed));
        assert_row(&rt, row, device.write_some(b"a"), Err(Failed));
        assert_row(&rt, row, device.flush_all(), Err(Failed));
        let calls = (counter.reads, counter.writes, counter.flushes);
        assert_row(&rt, row, calls, (1, 1, 1));
    }
}

#[test]
fn a_writer_that_takes_none_is_called_once(rt: HostRuntime) {
    let mut counter = Counter::new(0);
    let answer = Device::new(&mut counter).write_some(b"a");
    assert_row(&rt, 0, (answer, counter.writes), (Err(Failed), 1));
    // writing no bytes never fails
    assert_row(&rt, 1, Device::new(counter).write_some(b""), Ok(0));
}

#[test]
fn a_device_passes_each_call_on_once(rt: HostRuntime) {
    let mut counter = Counter::new(8);
    let mut device = Device::new(&mut counter);
    assert_row(&rt, 0, device.write_some(b"ab"), Ok(2));
    assert_row(&rt, 1, device.flush_all(), Ok(()));
    assert_row(&rt, 2, (counter.writes, counter.flushes), (1, 1));
}

#[test]
fn a_device_asks_for_as_many_bytes_as_it_has_room_for(rt: HostRuntime) {
    let answer = Device::new(Cursor::new(b"abcdefgh")).read_some(&mut [0; 8]);
    assert_row(&rt, 0, answer, Ok(8));
}

#[test]
fn a_device_reads_on_after_the_end(rt: HostRuntime) {
    let mut counter = Counter::new(0);
    let mut device = Device::new(&mut counter);
    assert_row(&rt, 0, device.read_some(&mut [0; 8]), Ok(0));
    assert_row(&rt, 1, device.read_some(&mut [0; 8]), Ok(0));
    assert_row(&rt, 2, counter.reads, 2);
}

#[test]
fn a_line_is_one_write_without_a_flush(rt: HostRuntime) -> Result<(), Fail> {
    let (mut sink, start) = (Recorder::new(), Position::start());
    write_event(&mut sink, 1, &Event::Stray(0x05))?;
    write_command(&mut sink, 12, &CommandEvent::Command(Command::Dump))?;
    write_unfinished(&mut sink, 13, 2)?;
    let lines = b"00000001 stray 05\n00000012 dump\n00000013 unfinished 2\n".as_slice();
    assert_row(&rt, 0, sink.taken(), lines);
    assert_row(&rt, 1, (sink.writes, sink.flushes), (3, 0));
    let mut sink = Recorder::new();
    write_closing(&start, None, None, true, &mut sink)?;
    assert_row(&rt, 2, sink.taken(), NEW_LINES);
    assert_row(&rt, 3, (sink.writes, sink.flushes), (1, 0));
    let mut text = [0; 8];
    let length = format_event(&Event::Stray(0x05), &mut text);
    assert_row(&rt, 4, (length, text), (Ok(8), *b"stray 05"));
    Ok(())
}

// These parts, each repeated this number of times.
fn repeated(parts: &[(&[u8], u32)]) -> Result<ArrayVec<u8, 8257>, Fail> {
    let mut bytes = ArrayVec::new();
    for (part, times) in parts {
        for _ in 0..*times {
            bytes.try_extend_from_slice(part)?;
        }
    }
    Ok(bytes)
}

// The engine, its input, the bytes of each read, the turns, the writes and the flushes.
type Counted = (
    Engine<'static>,
    &'static [(&'static [u8], u32)],
    usize,
    u32,
    u64,
    u64,
);

// A dump of a board with a pawn on each square, which has the longest placement, and field updates.
const PLACEMENTS: [(&[u8], u32); 3] = [(&[0x86, 0x00, 0x43], 1), (&[0x01], 64), (&E4_FIELD, 1638)];

const COUNTED: [Counted; 12] = [
    // an engine reads 4096 bytes at most
    (Engine::Monitor, &[(&E4_FIELD, 1000)], 9000, 3, 2, 2),
    (Engine::Picture(false, false), &PLACEMENTS, 9000, 4, 3, 3),
    (Engine::Commands, &[(&BEEP, 833)], 9000, 3, 2, 2),
    // a chunk without a line is also flushed
    (Engine::Monitor, &[(&E4_FIELD, 1)], 1, 10, 1, 5),
    (Engine::Monitor, &[(&E4_FIELD, 1)], 2, 10, 1, 3),
    (Engine::Monitor, &[(&E4_FIELD, 1)], 64, 10, 1, 1),
    (Engine::Commands, &[(&BEEP, 1)], 1, 10, 1, 6),
    (Engine::Commands, &[(&BEEP, 1)], 2, 10, 1, 3),
    (Engine::Commands, &[(&BEEP, 1)], 64, 10, 1, 1),
    (Engine::Commands, &[(&BEEP, 1), (&[0x2b], 1)], 64, 10, 2, 2),
    // a write for each message and outcome, and a flush before the first read
    (Engine::Serve(&[]), &[(&QUESTIONS, 1)], 4, 10, 5, 4),
    (Engine::Simulate, &[(b"send\n", 2)], 64, 10, 3, 2),
];

#[test]
fn a_write_and_a_flush_for_each_chunk(rt: HostRuntime) -> Result<(), Fail> {
    for (row, (engine, parts, step, limit, writes, flushes)) in COUNTED.iter().enumerate() {
        let bytes = repeated(parts)?;
        let mut source = Lender::new(bytes.as_slice(), *step);
        let mut counter = Counter::new(usize::MAX);
        let answer = engine.run(
            rt.alloc(),
            &mut source,
            &mut Device::new(&mut counter),
            *limit,
        )?;
        assert_row(&rt, row, answer, Ok(()));
        assert_row(
            &rt,
            row,
            (counter.writes, counter.flushes),
            (*writes, *flushes),
        );
    }
    Ok(())
}
