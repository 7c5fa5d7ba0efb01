//! Calls of lines of scripts, and the longest line. `tests/program/rows` contains the lines.

use super::asserting::{assert_same, assert_that};
use dgt_command::{Command, LedBytes};
use dgt_link::{Act, Outcome};
use dgt_script::{LineBuffer, LineFault, len_before, outcome_text, read_act};
use std::test::Fail;

#[test]
fn lines_in_chunks(rt: HostRuntime) {
    let mut line = LineBuffer::new();
    assert_that(&rt, line.is_empty(), "an empty line");
    line.add(b"ch");
    line.add(b"ange e2 .");
    assert_same(&rt, line.line(), Some(b"change e2 .".as_slice()));
    line.add(&[b'x'; 509]);
    assert_that(&rt, line.line().is_none(), "a line of 520 bytes");
    assert_same(&rt, len_before(b"send\nsend\n", b'\n'), 4);
    assert_same(&rt, len_before(b"send", b'\n'), 4);
    assert_same(&rt, outcome_text(Outcome::TooMany), b"toomany\n".as_slice());
}

#[test]
fn longest_line(rt: HostRuntime) -> Result<(), Fail> {
    let mut line = [b'0'; 520];
    line[..9].copy_from_slice(b"host 60ff");
    let mut store = [0xff; 257];
    let leds = Command::Leds(LedBytes::new(&[0; 255])?);
    let is_longest = read_act(&line[..519], &mut store) == Ok(Act::Host(leds));
    assert_that(&rt, is_longest, "the longest line");
    let long = read_act(&line, &mut store);
    let is_refused = long == Err(LineFault::BadLine { at: 519 });
    assert_that(&rt, is_refused, "a line that is too long");
    Ok(())
}
