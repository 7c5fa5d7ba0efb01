//! Followers: when they send requests, and which. `tests/testing/follower_calls.py` tests more of
//! their calls.

use super::asserting::{assert_same, assert_that};
use super::fixtures::*;
use dgt_command::Command;
use dgt_follow::{Follower, MAX_ASKING, UpdateMode};
use dgt_values::{Kind, NoRoom};

const NOTHING: &[u8] = &[];

/// A byte that is in no message.
const STRAY: &[u8] = &[0x01];

/// A report of a clock with a digit of its minutes that is never part of a time.
const UNREADABLE: [u8; 10] = [0x8d, 0x00, 0x0a, 0x01, 0x5a, 0x00, 0x01, 0x29, 0x55, 0x11];

/// The time, the bytes that a follower hears then (if there are none, it asks), how many bytes it
/// writes, when the next request is due, and whether it is in doubt.
type Row = (u64, &'static [u8], usize, u64, bool);

/// With a period of a second and a patience of two heartbeats.
const ROWS: [Row; 17] = [
    (5, NOTHING, 258, 1005, false),
    (90, &START_DUMP, 0, 1005, false),
    (1004, NOTHING, 0, 1005, false),
    (1005, NOTHING, 2, 2005, false),
    (1010, &START_DUMP, 0, 2005, false),
    (2005, NOTHING, 2, 3005, false),
    (2010, &START_DUMP, 0, 3005, false),
    // the patience has run out
    (3005, NOTHING, 258, 4005, false),
    (3010, &START_DUMP, 0, 4005, false),
    // a disturbance makes the next request due half a second after the last one
    (3020, STRAY, 0, 3505, true),
    (3504, NOTHING, 0, 3505, true),
    (3505, NOTHING, 258, 4505, true),
    (3550, &START_DUMP, 0, 4505, false),
    (4505, NOTHING, 2, 5505, false),
    // the heartbeat had no answer
    (5505, NOTHING, 258, 6505, true),
    // the caller's clock was set back
    (5504, NOTHING, 258, 6504, true),
    (5510, &START_DUMP, 0, 6504, false),
];

fn is_row(follower: &mut Follower, out: &mut [u8], row: Row) -> bool {
    let (now, heard, right, due, doubt) = row;
    let mut wrote = 0;
    if heard.is_empty() {
        wrote = follower.ask(now, out).unwrap_or(9);
    } else {
        follower.hear_all(now, heard);
    }
    // the picture stays known once it was heard
    let is_pictured = now < 90 || is_pictured(follower.picture(), START);
    wrote == right && follower.due_at() == Some(due) && follower.in_doubt() == doubt && is_pictured
}

#[test]
fn askings_follow_the_period_the_answers_and_the_disturbances(rt: HostRuntime) {
    let mut follower = Follower::new(1000, 2);
    let mut out = [0; MAX_ASKING];
    assert!(rt; follower.due_at() == Some(0));
    for (number, row) in ROWS.iter().enumerate() {
        assert!(rt; is_row(&mut follower, &mut out, *row), "row {number}");
    }
    assert!(rt; follower.last_heard() == Some(5510) && follower.heartbeats_left() == 2);
}

// Whether it asks at this time, and writes these bytes.
fn asks(follower: &mut Follower, now: u64, bytes: &[u8]) -> bool {
    let mut out = [0; MAX_ASKING];
    match follower.ask(now, &mut out) {
        Ok(count) => out.get(..count) == Some(bytes),
        Err(_) => false,
    }
}

#[test]
fn a_picture_is_confirmed_and_a_serial_number_requested(rt: HostRuntime) {
    let mut follower = Follower::new(10_000, 6);
    follower.set_mode(UpdateMode::UpdateNice);
    follower.set_confirm(true);
    follower.set_identify(true);
    let mut anew = [0; 259];
    anew[255..].copy_from_slice(&[0x44, 0x42, 0x4b, 0x41]);
    let short = follower.ask(0, &mut [0; 258]);
    assert_same(&rt, short, Err(NoRoom { need: 259 }));
    assert_that(&rt, asks(&mut follower, 0, &anew), "a new beginning");
    follower.hear_all(80, &START_DUMP);
    assert_that(&rt, asks(&mut follower, 80, &[0x45]), "its number");
    follower.hear_all(90, &SERIAL);
    let serial = Some([0x30, 0x30, 0x30, 0x30, 0x31]);
    assert_same(&rt, follower.serial(), serial);
    assert_that(&rt, !follower.confirmed(), "not confirmed");
    let heartbeat = [0x4b, 0x42, 0x41];
    assert_that(&rt, asks(&mut follower, 1000, &heartbeat), "a heartbeat");
    assert_same(&rt, follower.hear(1080, &START_DUMP), 67);
    assert_that(&rt, follower.confirmed(), "confirmed");
    assert_same(&rt, follower.due_at(), Some(11000));
    follower.ask_now();
    assert_same(&rt, follower.due_at(), Some(0));
    assert_that(&rt, asks(&mut follower, 1100, &heartbeat), "at once");
    follower.line_lost();
    assert_that(&rt, follower.picture().is_none(), "no picture");
    assert_that(&rt, follower.serial().is_none(), "no number");
    assert_that(&rt, follower.mode() == UpdateMode::UpdateNice, "the mode");
}

#[test]
fn a_clock_without_digits_is_unknown_and_a_late_reply_no_doubt(rt: HostRuntime) {
    let mut follower = Follower::new(10_000, 0);
    let mut out = [0; MAX_ASKING];
    assert_same(&rt, follower.ask(0, &mut out), Ok(258));
    follower.hear_all(1, &START_DUMP);
    follower.hear_all(2, &RUNNING);
    assert_that(&rt, is_shown(follower.clock(), Shown::Running), "a clock");
    follower.hear_all(3, &UNREADABLE);
    assert_that(&rt, follower.clock().is_none(), "no clock");
    assert_same(&rt, follower.send(&Command::Version, &mut out), Ok(1));
    // no heartbeat is allowed: it starts over, and gives up the version
    assert_same(&rt, follower.ask(10_000, &mut out), Ok(258));
    follower.hear_all(10_001, &VERSION);
    assert_that(&rt, !follower.in_doubt(), "no doubt");
    assert_same(&rt, follower.host().awaited(), [Kind::Dump].as_slice());
}
