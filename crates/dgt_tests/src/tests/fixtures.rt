//! Worked messages and placements, and a clock, a board and a world to start with.

use dgt_board::{Board, Identity, MAX_SENT, simulated_clock};
use dgt_link::{World, WorldFault};
use dgt_message::{Clock, NoClock, Reading, Status, Times};
use dgt_values::{Position, SevenBit};
use std::alloc::Global;

// A dump of the initial position, with this piece on e2.
macro_rules! dump {
    ($e2:literal) => {
        [
            0x86, 0x00, 0x43, 8, 9, 10, 12, 11, 10, 9, 8, 7, 7, 7, 7, 7, 7, 7, 7, 0, 0, 0, 0, 0, 0,
            0, 0, 0, 0, 0, 0, 0, 0, 0, 0, 0, 0, 0, 0, 0, 0, 0, 0, 0, 0, 0, 0, 0, 0, 0, 0, 1, 1, 1,
            1, $e2, 1, 1, 1, 2, 3, 4, 6, 5, 4, 3, 2,
        ]
    };
}

pub const START_DUMP: [u8; MAX_SENT] = dump!(1);

pub const NO_E2_DUMP: [u8; MAX_SENT] = dump!(0);

/// Field updates: e2 is empty, and a white pawn is on e4.
pub const E2_FIELD: [u8; 5] = [0x8e, 0x00, 0x05, 0x34, 0x00];

pub const E4_FIELD: [u8; 5] = [0x8e, 0x00, 0x05, 0x24, 0x01];

/// The serial number 00001, the version 1.3 and the long serial number 0000000001.
pub const SERIAL: [u8; 8] = [0x91, 0x00, 0x08, 0x30, 0x30, 0x30, 0x30, 0x31];

pub const VERSION: [u8; 5] = [0x93, 0x00, 0x05, 0x01, 0x03];

pub const LONG_SERIAL: [u8; 13] = [
    0xa2, 0x00, 0x0d, 0x30, 0x30, 0x30, 0x30, 0x30, 0x30, 0x30, 0x30, 0x30, 0x31,
];

pub const TRADEMARK: [u8; 18] = [
    0x92, 0x00, 0x12, b'S', b'I', b'M', b'U', b'L', b'A', b'T', b'E', b'D', b' ', b'B', b'O', b'A',
    b'R', b'D',
];

pub const BATTERY: [u8; 4] = [0xa0, 0x00, 0x04, 0x64];

/// A command to the clock, and its acknowledgement.
pub const BEEP: [u8; 6] = [0x2b, 0x04, 0x03, 0x0b, 0x10, 0x00];

pub const BEEP_ACK: [u8; 10] = [0x8d, 0x00, 0x0a, 0x0a, 0x10, 0x0b, 0x0a, 0x00, 0x00, 0x00];

/// Requests for serial, trademark, version, battery and the version of the clock.
pub const QUESTIONS: [u8; 9] = [0x45, 0x47, 0x4d, 0x4c, 0x2b, 0x03, 0x03, 0x09, 0x00];

/// The message of a clock of each kind of [`Shown`].
pub const ZEROS: [u8; 10] = [0x8d, 0x00, 0x0a, 0x00, 0x00, 0x00, 0x00, 0x00, 0x00, 0x00];

pub const RUNNING: [u8; 10] = [0x8d, 0x00, 0x0a, 0x01, 0x30, 0x00, 0x01, 0x29, 0x55, 0x11];

pub const NO_CLOCK: [u8; 10] = [0x8d, 0x00, 0x0a, 0x00, 0x00, 0x00, 0x00, 0x00, 0x00, 0x20];

/// Placements: the initial position, and with e2 or e4 changed.
pub const START: &str = "rnbqkbnr/pppppppp/8/8/8/8/PPPPPPPP/RNBQKBNR";

pub const NO_E2: &str = "rnbqkbnr/pppppppp/8/8/8/8/PPPP1PPP/RNBQKBNR";

pub const E4_ADDED: &str = "rnbqkbnr/pppppppp/8/8/4P3/8/PPPPPPPP/RNBQKBNR";

pub const E4_PLAYED: &str = "rnbqkbnr/pppppppp/8/8/4P3/8/PPPP1PPP/RNBQKBNR";

/// The line of `E4_FIELD`.
pub const E4_LINE: &[u8] = b"00000005 field e4 P\n";

/// The closing lines of a world in which nothing happened.
pub const NEW_LINES: &[u8] =
    b"board rnbqkbnr/pppppppp/8/8/8/8/PPPPPPPP/RNBQKBNR\nhost unknown\nhostclock unknown\nquiet yes\n";

/// What a clock shows.
#[derive(Clone, Copy)]
pub enum Shown {
    Zeros,
    /// 1:30:00 and 1:29:55
    Running,
    /// the board has no clock
    Absent,
}

pub fn clock_that_shows(shown: Shown) -> Option<Clock> {
    let (first, second, status) = match shown {
        Shown::Zeros => ([0; 3], [0; 3], 0),
        Shown::Running => ([1, 30, 0], [1, 29, 55], 0x11),
        Shown::Absent => return no_clock(),
    };
    let first = Reading::new(first[0], first[1], first[2], 0).ok()?;
    let second = Reading::new(second[0], second[1], second[2], 0).ok()?;
    let status = Status::new(SevenBit::try_from(status).ok()?);
    Some(Clock::Times(Times::new(first, second, status).ok()?))
}

fn no_clock() -> Option<Clock> {
    let zero = SevenBit::try_from(0).ok()?;
    let status = Status::new(SevenBit::try_from(0x20).ok()?);
    Some(Clock::NoClock(NoClock::new([zero; 6], status).ok()?))
}

/// A new board with the starting position.
pub fn new_board() -> Board {
    Board::new(Position::start(), simulated_clock(), Identity::simulated())
}

/// A world with such a board, and lines of these capacities.
pub fn world_of(alloc: Global, up: usize, down: usize) -> Result<World, WorldFault> {
    let (clock, identity) = (simulated_clock(), Identity::simulated());
    World::new(alloc, Position::start(), clock, identity, up, down)
}

pub fn is_at(position: &Position, placement: &str) -> bool {
    match Position::parse_placement(placement) {
        Ok(placed) => *position == placed,
        Err(_) => false,
    }
}

/// The picture of a host, if it has one.
pub fn is_pictured(picture: Option<&Position>, placement: &str) -> bool {
    match picture {
        Some(picture) => is_at(picture, placement),
        None => false,
    }
}

/// Whether there is a clock, and it shows this.
pub fn is_shown(clock: Option<&Clock>, shown: Shown) -> bool {
    match clock {
        Some(clock) => clock_that_shows(shown) == Some(*clock),
        None => false,
    }
}
