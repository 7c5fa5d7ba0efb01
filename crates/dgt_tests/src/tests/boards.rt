//! Boards in worked conversations. `tests/program/rows` contains others.

use super::asserting::{assert_same, assert_that};
use super::fixtures::*;
use dgt_board::{Board, Busy, Identity, MAX_SENT, Mode, Polled};
use dgt_command::{Command, CommandEvent};
use dgt_values::{Body, Piece, Position, SevenBit, Square};
use std::process::Abort;
use std::test::Fail;

// What happens to a board, or what it then sends.
#[derive(Clone, Copy)]
enum Step {
    // The board takes each of these bytes in a separate call.
    Take(&'static [u8]),
    Change(&'static str, Piece),
    Hand(Shown),
    LoseLine,
    // The board sends these messages, in order, and then has nothing to send.
    Sends(&'static [&'static [u8]]),
}

use Step::*;

// What happens to a new board, and what it then sends.
const SCENES: [(&str, &[Step]); 9] = [
    (
        "replies go before fields and fields before times",
        &[
            Take(&[0x43]),
            Change("e2", Piece::Empty),
            Take(&[0x45]),
            Sends(&[&SERIAL, &E2_FIELD, &ZEROS]),
        ],
    ),
    (
        "times asked for twice are sent once",
        &[Take(&[0x43, 0x41]), Sends(&[&ZEROS])],
    ),
    (
        "a dump reports the changes before it",
        &[
            Take(&[0x42]),
            Change("e2", Piece::Empty),
            Sends(&[&NO_E2_DUMP]),
            Take(&[0x44]),
            Sends(&[]),
        ],
    ),
    (
        "an idle board keeps its changes",
        &[
            Take(&[0x44]),
            Change("e2", Piece::Empty),
            Take(&[0x40]),
            Sends(&[]),
            Take(&[0x44]),
            Sends(&[&E2_FIELD]),
        ],
    ),
    (
        "one mode sends the times if they differ",
        &[
            Take(&[0x4b]),
            Sends(&[&ZEROS]),
            Hand(Shown::Running),
            Hand(Shown::Zeros),
            Sends(&[]),
            Hand(Shown::Running),
            Sends(&[&RUNNING]),
        ],
    ),
    (
        "another mode sends each reading",
        &[
            Take(&[0x43]),
            Sends(&[&ZEROS]),
            Hand(Shown::Zeros),
            Sends(&[&ZEROS]),
        ],
    ),
    (
        "without a clock nothing is acknowledged",
        &[
            Take(&BEEP),
            Sends(&[&BEEP_ACK]),
            Hand(Shown::Absent),
            Take(&BEEP),
            Take(&[0x41]),
            Sends(&[&NO_CLOCK]),
        ],
    ),
    (
        "a lost line leaves the squares and the clock",
        &[
            // a square, the times and a reply are due, and a command is half received
            Take(&[0x43]),
            Change("e2", Piece::Empty),
            Hand(Shown::Running),
            Take(&[0x45, 0x2b, 0x04, 0x03]),
            LoseLine,
            Sends(&[]),
            // only a dump reports the change; the clock is to be sent again, though it wasn't read
            // again
            Take(&[0x44]),
            Sends(&[]),
            Take(&[0x42]),
            Sends(&[&NO_E2_DUMP]),
            Take(&[0x4b]),
            Sends(&[&RUNNING]),
        ],
    ),
    (
        "a change after a lost line is reported",
        &[
            LoseLine,
            Take(&[0x44]),
            Change("e2", Piece::Empty),
            Sends(&[&E2_FIELD]),
        ],
    ),
];

fn takes(board: &mut Board, bytes: &[u8]) -> bool {
    for byte in bytes {
        match board.take(&[*byte]) {
            Ok(taken) if taken.used == 1 => {}
            _ => return false,
        }
    }
    true
}

fn sends(board: &mut Board, messages: &[&[u8]]) -> bool {
    let mut out = [0; MAX_SENT];
    for message in messages {
        let owes = board.owes();
        match board.poll(&mut out) {
            Polled::Wrote(length) if owes && out.get(..length) == Some(*message) => {}
            _ => return false,
        }
    }
    !board.owes() && board.poll(&mut out) == Polled::Nothing
}

// Executes the step, and returns whether the board behaved as it says.
fn comes_true(board: &mut Board, step: Step) -> Result<bool, Fail> {
    match step {
        Take(bytes) => return Ok(takes(board, bytes)),
        Change(square, piece) => board.change(Square::parse(square)?, piece),
        Hand(shown) => board.hand_clock(clock_that_shows(shown).ok_or("no clock")?),
        LoseLine => board.line_lost(),
        Sends(messages) => return Ok(sends(board, messages)),
    }
    Ok(true)
}

#[test]
fn boards(rt: HostRuntime) -> Result<(), Fail> {
    for (name, steps) in &SCENES {
        let mut board = new_board();
        for step in *steps {
            assert_that(&rt, comes_true(&mut board, *step)?, name);
        }
    }
    Ok(())
}

fn is_leds(event: Option<CommandEvent<'_>>, bytes: &[u8]) -> bool {
    match event {
        Some(CommandEvent::Command(Command::Leds(leds))) => leds.bytes() == bytes,
        _ => false,
    }
}

#[test]
fn a_board_lends_a_command_and_becomes_busy(rt: HostRuntime) -> Result<(), Fail> {
    let mut board = new_board();
    let taken = board.take(&[0x60, 0x02, 0x42, 0x44, 0x44])?;
    assert_same(&rt, taken.used, 4);
    assert_that(&rt, is_leds(taken.event, &[0x42, 0x44]), "lights");
    assert_that(
        &rt,
        takes(&mut board, &[0x44, 0x2b, 0x04]),
        "a half command",
    );
    assert_same(&rt, (board.mode(), board.partial()), (Mode::UpdateBoard, 2));
    assert_that(
        &rt,
        takes(&mut board, &[0x03, 0x0b, 0x10, 0x01]),
        "a bad end",
    );
    assert_that(&rt, takes(&mut board, &[0x42; 8]), "eight requests");
    assert_same(&rt, board.owed_len(), 8);
    assert_same(&rt, board.take(&[0x40]).err(), Some(Busy));
    let mut short = [0xff; 66];
    assert_same(&rt, board.poll(&mut short), Polled::NeedRoom(MAX_SENT));
    let dump = START_DUMP.as_slice();
    assert_that(&rt, sends(&mut board, &[dump; 8]), "eight dumps");
    assert_that(&rt, *board.position() == Position::start(), "the start");
    assert_that(&rt, is_shown(Some(board.clock()), Shown::Zeros), "zeros");
    Ok(())
}

#[test]
fn a_board_says_what_it_is(rt: HostRuntime) -> Result<(), Fail> {
    let (serial, version) = (SevenBit::try_from(0x31)?, SevenBit::try_from(2)?);
    let identity = Identity::new(
        [serial; 5],
        Body::new(b"DGT")?,
        version,
        version,
        Body::new(&[0x20])?,
        0x14,
        Body::new(&[0x31; 10])?,
    )?;
    let zeros = clock_that_shows(Shown::Zeros).ok_or("no clock")?;
    let mut board = Board::new(Position::empty(), zeros, identity);
    assert_that(&rt, takes(&mut board, &QUESTIONS), "questions");
    let replies: [&[u8]; 5] = [
        &[0x91, 0x00, 0x08, 0x31, 0x31, 0x31, 0x31, 0x31],
        &[0x92, 0x00, 0x06, 0x44, 0x47, 0x54],
        &[0x93, 0x00, 0x05, 0x02, 0x02],
        &[0xa0, 0x00, 0x04, 0x20],
        &[0x8d, 0x00, 0x0a, 0x0a, 0x10, 0x09, 0x0a, 0x14, 0x00, 0x00],
    ];
    assert_that(&rt, sends(&mut board, &replies), "replies");
    Ok(())
}
