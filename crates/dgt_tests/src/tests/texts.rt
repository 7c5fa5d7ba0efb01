//! The texts of faults.

use super::asserting::assert_said;
use dgt_board::{Busy, TooLong};
use dgt_host::SendFault;
use dgt_link::WorldFault;
use dgt_text::{Failed, LineFault, RunFault};
use std::test::Fail;

#[test]
fn of_boards_hosts_and_worlds(rt: HostRuntime) -> Result<(), Fail> {
    let alloc = rt.alloc();
    let busy = "the board owes 8 replies: poll it first";
    assert_said(&rt, alloc, &Busy, busy)?;
    assert_said(&rt, alloc, &TooLong, "a body is longer than 64 bytes")?;
    let rows = [
        (SendFault::NoRoom { need: 1 }, "the buffer needs 1 bytes"),
        (
            SendFault::NoRoom { need: 257 },
            "the buffer needs 257 bytes",
        ),
        (SendFault::TooMany, "16 replies are awaited already"),
    ];
    for (fault, text) in &rows {
        assert_said(&rt, alloc, fault, text)?;
    }
    assert_said(&rt, alloc, &WorldFault::LineTooSmall, "a line is too small")?;
    assert_said(&rt, alloc, &WorldFault::OutOfMemory, "out of memory")
}

#[test]
fn of_runs_and_lines(rt: HostRuntime) -> Result<(), Fail> {
    let alloc = rt.alloc();
    let rows = [
        (RunFault::ReadFailed, "read failed"),
        (RunFault::WriteFailed, "write failed"),
        (RunFault::TooManyTurns, "too many turns"),
        (
            RunFault::BadLine { line: 12, at: 345 },
            "line 12: bad at 345",
        ),
    ];
    for (fault, text) in &rows {
        assert_said(&rt, alloc, fault, text)?;
    }
    assert_said(&rt, alloc, &LineFault::BadLine { at: 67 }, "bad at 67")?;
    assert_said(&rt, alloc, &Failed, "the device failed")
}
