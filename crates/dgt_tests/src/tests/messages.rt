//! Calls of messages, and the texts of their errors. `tests/program/rows` tests how bytes are read.

use super::asserting::{assert_said, assert_same, assert_that};
use dgt_message::{
    BadDigits, BodyFault, Message, NoClock, NotThisKind, OtherCode, Reading, Status, Times, encode,
    length, view,
};
use dgt_values::{Body, NoRoom, Piece, SevenBit, Square};
use std::process::Abort;
use std::test::Fail;

#[test]
fn a_field_is_viewed_and_written(rt: HostRuntime) -> Result<(), Fail> {
    let square = Square::parse("e4")?;
    let piece = Piece::WhitePawn;
    let message = Message::Field { square, piece };
    let field = SevenBit::try_from(0x0e)?;
    assert_same(&rt, view(field, Body::new(&[0x24, 0x01])?), Ok(message));
    let fault = BodyFault::BadSquare { at: 0 };
    assert_same(&rt, view(field, Body::new(&[0x40, 0x10])?), Err(fault));
    let mut out = [0xff; 6];
    let short = encode(&message, &mut out[..4]);
    assert_same(&rt, (length(&message), short), (5, Err(NoRoom { need: 5 })));
    assert_same(&rt, encode(&message, &mut out), Ok(5));
    assert_same(&rt, out, [0x8e, 0x00, 0x05, 0x24, 0x01, 0xff]);
    Ok(())
}

fn assert_reads(rt: &impl Abort, reading: Reading, values: [u8; 4]) {
    let found = [
        reading.hours(),
        reading.minutes(),
        reading.seconds(),
        reading.flags(),
    ];
    assert_same(rt, found, values);
}

#[test]
fn readings_and_the_status_are_reported(rt: HostRuntime) -> Result<(), Fail> {
    let status = Status::new(SevenBit::try_from(0x11)?);
    let times = Times::new(
        Reading::new(1, 30, 0, 0)?,
        Reading::new(1, 29, 55, 0)?,
        status,
    )?;
    assert_reads(&rt, times.first(), [1, 30, 0, 0]);
    assert_reads(&rt, times.second(), [1, 29, 55, 0]);
    let status = times.status();
    assert_same(&rt, status.code().get(), 0x11);
    assert_that(&rt, status.running() && status.white_turn(), "White's turn");
    let others = [status.lever(), status.battery_low(), status.black_turn()];
    assert_same(&rt, others, [false; 3]);
    let zero = SevenBit::try_from(0x00)?;
    let absence = NoClock::new([zero; 6], Status::new(SevenBit::try_from(0x20)?))?;
    assert_that(&rt, absence.status().no_clock(), "no clock");
    assert_same(&rt, absence.raw()[5].get(), 0x00);
    let other = OtherCode::new(SevenBit::try_from(0x30)?)?;
    assert_same(&rt, other.get().get(), 0x30);
    Ok(())
}

#[test]
fn errors_have_texts(rt: HostRuntime) -> Result<(), Fail> {
    let alloc = rt.alloc();
    let size = "the body has the wrong size for its code";
    assert_said(&rt, alloc, &BodyFault::WrongSize, size)?;
    let piece = BodyFault::BadPiece { at: 5 };
    assert_said(&rt, alloc, &piece, "byte 5 is not a piece")?;
    let square = BodyFault::BadSquare { at: 6 };
    assert_said(&rt, alloc, &square, "byte 6 is not a square")?;
    let reading = BodyFault::BadReading { at: 4 };
    assert_said(&rt, alloc, &reading, "byte 4 is not valid in a clock time")?;
    let time = "not a time from 0:00:00 to 9:59:59 with flags from 0 to 7";
    assert_said(&rt, alloc, &BadDigits, time)?;
    let kind = "these bytes are another kind of clock message";
    assert_said(&rt, alloc, &NotThisKind, kind)
}
