//! Hosts: what they write, and how they react to what they hear.

use super::asserting::{assert_same, assert_that};
use super::fixtures::*;
use dgt_command::Command;
use dgt_host::{Host, Kind, SendFault};
use std::process::Abort;

// Asserts that the host hears all of these bytes as one message, unasked or not.
fn assert_heard(rt: &impl Abort, host: &mut Host, bytes: &[u8], unasked: bool) {
    let heard = host.hear(bytes);
    assert_same(rt, (heard.used, heard.unasked), (bytes.len(), unasked));
}

#[test]
fn a_host_follows_a_board(rt: HostRuntime) {
    let mut host = Host::new();
    let mut out = [0xff; 3];
    assert_same(&rt, host.follow(&mut out), Ok(2));
    assert_same(&rt, out, [0x44, 0x42, 0xff]);
    assert_same(&rt, host.send(&Command::Version, &mut out), Ok(1));
    assert_same(&rt, host.awaited(), [Kind::Dump, Kind::Version].as_slice());
    // a version before the dump that is awaited first, and a field update before the dump
    assert_heard(&rt, &mut host, &VERSION, true);
    assert_heard(&rt, &mut host, &E4_FIELD, false);
    assert_that(&rt, host.picture().is_none(), "no picture");
    assert_heard(&rt, &mut host, &START_DUMP, false);
    assert_that(&rt, is_pictured(host.picture(), START), "the start");
    assert_heard(&rt, &mut host, &E4_FIELD, false);
    assert_that(&rt, is_pictured(host.picture(), E4_ADDED), "a pawn");
    assert_heard(&rt, &mut host, &VERSION, false);
    assert_heard(&rt, &mut host, &START_DUMP, true);
    // a clock in two chunks
    assert_heard(&rt, &mut host, &RUNNING[..4], false);
    assert_that(&rt, host.unread() == 4 && host.clock().is_none(), "a part");
    assert_heard(&rt, &mut host, &RUNNING[4..], false);
    assert_that(&rt, is_shown(host.clock(), Shown::Running), "a clock");
    // several messages at once, and the first byte of another
    host.hear_all(&[
        0x8e, 0x00, 0x05, 0x34, 0x00, 0x8e, 0x00, 0x05, 0x24, 0x01, 0x07, 0x8e,
    ]);
    assert_that(&rt, is_pictured(host.picture(), E4_PLAYED), "a move");
    assert_same(&rt, host.unread(), 1);
}

#[test]
fn a_host_begins_anew(rt: HostRuntime) {
    let mut host = Host::new();
    let (mut out, mut right) = ([0xff; 258], [0x00; 258]);
    right[255..].copy_from_slice(&[0x44, 0x42, 0xff]);
    let short = host.restart(&mut out[..256]);
    assert_same(&rt, short, Err(SendFault::NoRoom { need: 257 }));
    assert_same(&rt, host.restart(&mut out), Ok(257));
    assert_that(&rt, out == right, "zeros and what makes a board follow");
    for _ in 0..15 {
        assert_same(&rt, host.send(&Command::Serial, &mut out), Ok(1));
    }
    let many = host.send(&Command::Serial, &mut out);
    assert_same(&rt, many, Err(SendFault::TooMany));
    assert_heard(&rt, &mut host, &START_DUMP, false);
    assert_same(&rt, host.give_up_awaited(), 15);
    assert_that(&rt, is_pictured(host.picture(), START), "the start");
    // a lost line makes it as new
    assert_heard(&rt, &mut host, &RUNNING, false);
    assert_heard(&rt, &mut host, &E2_FIELD[..3], false);
    host.line_lost();
    assert_that(&rt, host.picture().is_none(), "no picture");
    assert_that(&rt, host.clock().is_none(), "no clock");
    assert_that(
        &rt,
        host.awaited().is_empty() && host.unread() == 0,
        "nothing",
    );
}
