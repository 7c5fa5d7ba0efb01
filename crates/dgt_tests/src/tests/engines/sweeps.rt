//! Runs in which something fails, at each possible place.

use crate::tests::asserting::assert_that;
use crate::tests::engines::devices::{Lender, Recorder};
use crate::tests::engines::engine::{Answer, Engine};
use crate::tests::fixtures::*;
use arrayvec::ArrayVec;
use dgt_text::RunFault;
use std::alloc::AllocGlobal;
use std::process::Abort;
use std::test::Fail;

// The most bytes in a read and in a write.
const STEPS: [usize; 2] = [1, 64];

// What fails in a run: the read, write or flush of this number, or a full sink, or the turns run
// out.
#[derive(Clone, Copy, PartialEq, Eq)]
enum Trouble {
    Read,
    Write,
    Flush,
    Room,
    Turns,
}

// All of them, each with its first place: reads, writes and flushes count from 1.
const TROUBLES: [(Trouble, u32); 5] = [
    (Trouble::Read, 1),
    (Trouble::Write, 1),
    (Trouble::Flush, 1),
    (Trouble::Room, 0),
    (Trouble::Turns, 0),
];

impl Trouble {
    fn fault(self) -> RunFault {
        match self {
            Trouble::Read => RunFault::ReadFailed,
            Trouble::Write | Trouble::Flush | Trouble::Room => RunFault::WriteFailed,
            Trouble::Turns => RunFault::TooManyTurns,
        }
    }

    // Whether it can cut a write in two.
    fn tears(self) -> bool {
        matches!(self, Trouble::Write | Trouble::Room)
    }
}

// A run in which something fails: the read, write or flush of number `at`, or the sink has room for
// only `at` bytes, or there are only `at` turns.
#[derive(Clone, Copy)]
struct Trial {
    trouble: Trouble,
    at: u32,
}

impl Trial {
    // The place of this trouble, or a number beyond the end of any run.
    fn place(self, trouble: Trouble) -> u32 {
        if self.trouble == trouble {
            self.at
        } else {
            u32::MAX
        }
    }

    // Its source of these bytes and its sink, with `step` bytes a call, and the number of turns.
    fn ends(self, bytes: &[u8], step: usize) -> (Lender<'_>, Recorder, u32) {
        let mut source = Lender::new(bytes, step);
        source.fails_at = self.place(Trouble::Read) as u64;
        let mut sink = Recorder::new();
        sink.step = step;
        sink.write_fails_at = self.place(Trouble::Write) as u64;
        sink.flush_fails_at = self.place(Trouble::Flush) as u64;
        sink.room = self.place(Trouble::Room) as usize;
        (source, sink, self.place(Trouble::Turns).min(1000))
    }

    // Where the trouble occurred.
    fn came(self, source: &Lender<'_>, sink: &Recorder) -> u64 {
        match self.trouble {
            Trouble::Read | Trouble::Turns => source.reads,
            Trouble::Write => sink.writes,
            Trouble::Flush => sink.flushes,
            Trouble::Room => sink.taken().len() as u64,
        }
    }
}

// Bytes of the input, and the output once they were read.
type Row = (&'static [u8], &'static [u8]);

// An engine, its input and output, its output at the end of the input, and the result of a run in
// which nothing fails.
type Sweep = (Engine<'static>, &'static [Row], &'static [u8], Answer);

fn input_of(rows: &[Row]) -> Result<ArrayVec<u8, 256>, Fail> {
    let mut input = ArrayVec::new();
    for (bytes, _) in rows {
        input.try_extend_from_slice(bytes)?;
    }
    Ok(input)
}

// The output for the bytes that were read, and then at their end.
fn text_of(rows: &[Row], last: &[u8], source: &Lender<'_>) -> Result<ArrayVec<u8, 1024>, Fail> {
    let mut text = ArrayVec::new();
    let mut end = 0usize;
    for (bytes, written) in rows {
        end = end.saturating_add(bytes.len());
        if end <= source.given {
            text.try_extend_from_slice(written)?;
        }
    }
    if source.ended {
        text.try_extend_from_slice(last)?;
    }
    Ok(text)
}

// Makes one run, with at most `step` bytes a read and a write, and returns whether it met its
// trouble. After a torn write the sink contains a prefix of the text, and otherwise all of it.
fn meets(
    rt: &(impl Abort + AllocGlobal),
    (engine, rows, last, whole): Sweep,
    step: usize,
    trial: Trial,
) -> Result<bool, Fail> {
    let input = input_of(rows)?;
    let (mut source, mut sink, limit) = trial.ends(input.as_slice(), step);
    let answer = engine.run(rt.alloc(), &mut source, &mut sink, limit)?;
    let is_met = answer != whole;
    let text = text_of(rows, last, &source)?;
    let is_written = if is_met && trial.trouble.tears() {
        text.as_slice().starts_with(sink.taken()) && sink.taken().len() < text.len()
    } else {
        text.as_slice() == sink.taken()
    };
    assert_that(rt, is_written, "what is written");
    assert_that(rt, !source.late && !sink.late, "no call that came late");
    assert_that(rt, sink.flushed || sink.failed, "all is flushed");
    if is_met {
        assert_that(rt, answer == Err(trial.trouble.fault()), "the fault");
        let is_at_its_place = trial.came(&source, &sink) == trial.at as u64;
        assert_that(rt, is_at_its_place, "the place of the fault");
    }
    Ok(is_met)
}

// Makes a run with the trouble at each place in turn, until one is after the end of the run.
fn meets_all(
    rt: &(impl Abort + AllocGlobal),
    sweep: Sweep,
    step: usize,
    (trouble, first): (Trouble, u32),
) -> Result<(), Fail> {
    for at in first..1000 {
        if !meets(rt, sweep, step, Trial { trouble, at })? {
            return Ok(());
        }
    }
    assert_that(rt, false, "a run meets no trouble in the end");
    Ok(())
}

// Each message and each fault, and a prefix of a message at the end.
const MONITORED: [Row; 8] = [
    (&[0x05], b"00000001 stray 05\n"),
    (&[0x8e, 0x00, 0x8e], b"00000004 cut 2\n"),
    (&[0x00, 0x05, 0x24, 0x01], b"00000008 field e4 P\n"),
    (&[0x8e, 0x00, 0x02], b"00000011 badlength\n"),
    (&[0x05], b"00000012 stray 05\n"),
    (
        &[0x92, 0x00, 0x05, 0x53, 0x4a],
        b"00000017 trademark 534a\n",
    ),
    (
        &[0x8e, 0x00, 0x05, 0x40, 0x10],
        b"00000022 refused 0e badsquare 0\n",
    ),
    (&[0x8e], b""),
];

const PICTURES: [Row; 4] = [
    (&E4_FIELD, b""),
    (
        &START_DUMP,
        b"00000072 rnbqkbnr/pppppppp/8/8/8/8/PPPPPPPP/RNBQKBNR\n",
    ),
    (
        &E4_FIELD,
        b"00000077 rnbqkbnr/pppppppp/8/8/4P3/8/PPPPPPPP/RNBQKBNR\n",
    ),
    (&[0x8e], b""),
];

const DOUBTS: [Row; 4] = [
    (
        &START_DUMP,
        b"00000067 rnbqkbnr/pppppppp/8/8/8/8/PPPPPPPP/RNBQKBNR\n",
    ),
    (&[0x05], b"00000068 doubt\n"),
    (
        &E4_FIELD,
        b"00000073 rnbqkbnr/pppppppp/8/8/4P3/8/PPPPPPPP/RNBQKBNR\n",
    ),
    (&[0x8e], b""),
];

const CLOCKS: [Row; 4] = [
    (&RUNNING, b"00000010 clock 1:30:00 1:29:55 running white\n"),
    (
        &START_DUMP,
        b"00000077 rnbqkbnr/pppppppp/8/8/8/8/PPPPPPPP/RNBQKBNR\n",
    ),
    (&RUNNING, b""),
    (&NO_CLOCK, b"00000097 clock none\n"),
];

const COMMANDS: [Row; 6] = [
    (&[0x44], b"00000001 updateboard\n"),
    (&BEEP, b"00000007 beep 16\n"),
    (&[0x00], b"00000008 stray 00\n"),
    (&[0x2b, 0x02], b"00000010 badsize\n"),
    (&[0x60, 0x02, 0x42, 0xff], b"00000014 leds 42ff\n"),
    (&[0x2b, 0x03, 0x03], b""),
];

const SERVED: [Row; 7] = [
    (&[0x4d], &VERSION),
    (&[0x2b, 0x02], b""),
    (&[0x45], &SERIAL),
    (&[0x43], &ZEROS),
    (&[0x40], b""),
    (&[0x42], &START_DUMP),
    (&[0x2b, 0x04], b""),
];

// Output of a board that owes two replies and sends before it reads.
const OWED: [Row; 3] = [(b"", &TRADEMARK), (b"", &BATTERY), (&[0x4d], &VERSION)];

const ACTS: [Row; 7] = [
    (b"host 44\n", b"done\n"),
    (b"host 42\n", b"done\n"),
    (b"toboard 2\n", b"done\n"),
    (b"send\n", b"done\n"),
    (b"send\n", b"nothing\n"),
    (b"change e2 .\n", b"done\n"),
    (b"tohost 67", b""),
];

const ACTS_DONE: &[u8] = b"done\nboard rnbqkbnr/pppppppp/8/8/8/8/PPPP1PPP/RNBQKBNR\n\
host rnbqkbnr/pppppppp/8/8/8/8/PPPPPPPP/RNBQKBNR\nhostclock unknown\nquiet no\n";

// The acts before a bad line are done.
const BAD: [Row; 3] = [
    (b"host 44\n", b"done\n"),
    (b"sned\n", b""),
    (b"host 43\n", b""),
];

// A command is lost.
const LOST: [Row; 3] = [
    (b"host 42\n", b"done\n"),
    (b"garbledown -\n", b"done\n"),
    (b"toboard 1\n", b"nothing\n"),
];

const BAD_LINE: Answer = Err(RunFault::BadLine { line: 2, at: 0 });

const SWEEPS: [Sweep; 12] = [
    (
        Engine::Monitor,
        &MONITORED,
        b"00000023 unfinished 1\n",
        Ok(()),
    ),
    (Engine::Picture(false, false), &PICTURES, b"", Ok(())),
    (Engine::Picture(true, false), &DOUBTS, b"", Ok(())),
    (Engine::Picture(false, true), &CLOCKS, b"", Ok(())),
    (Engine::Picture(true, true), &CLOCKS, b"", Ok(())),
    (
        Engine::Commands,
        &COMMANDS,
        b"00000017 unfinished 3\n",
        Ok(()),
    ),
    (Engine::Serve(&[]), &SERVED, b"", Ok(())),
    (Engine::Serve(&[0x47, 0x4c]), &OWED, b"", Ok(())),
    (Engine::Simulate, &ACTS, ACTS_DONE, Ok(())),
    (Engine::Simulate, &BAD, b"", BAD_LINE),
    (Engine::Simulate, &[], NEW_LINES, Ok(())),
    (Engine::SimulateFaults, &LOST, NEW_LINES, Ok(())),
];

#[test]
fn each_engine_meets_each_trouble_at_each_place(rt: HostRuntime) -> Result<(), Fail> {
    for sweep in &SWEEPS {
        for step in &STEPS {
            for trouble in &TROUBLES {
                meets_all(&rt, *sweep, *step, *trouble)?;
            }
        }
    }
    Ok(())
}
