//! The commands, and the events that a reader of their bytes reports.

use crate::carried::LedBytes;
use crate::clock::ClockCommand;

/// A command from the host to the board.
#[derive(Clone, Copy, Debug, PartialEq, Eq)]
pub enum Command<'a> {
    /// Go to the idle mode.
    Reset,
    /// Send the clock's times.
    Clock,
    /// Send all squares.
    Dump,
    /// From now on, send each changed square and the clock's times.
    Update,
    /// From now on, send each changed square.
    UpdateBoard,
    /// From now on, send each changed square, and the clock's times if they changed.
    UpdateNice,
    /// Send the serial number.
    Serial,
    /// Send the trademark.
    Trademark,
    /// Send the state of the battery.
    Battery,
    /// Send the version.
    Version,
    /// Send the long serial number.
    LongSerial,
    /// A message to the clock.
    ClockMessage(ClockCommand<'a>),
    /// Light these LEDs.
    Leds(LedBytes<'a>),
}

/// The event of one frame on the line from the host to the board: a command or a fault.
///
/// A fault is reported at the byte that reveals it, and the next byte begins a new frame. That is
/// this project's own choice. An LED frame has no faults: its bytes may be any.
#[derive(Clone, Copy, Debug, PartialEq, Eq)]
pub enum CommandEvent<'a> {
    /// A command.
    Command(Command<'a>),
    /// The second byte of a clock message, its size, is below 3.
    BadSize,
    /// The third byte of a clock message isn't 03.
    BadStart,
    /// The last byte of a clock message isn't 00.
    BadEnd,
    /// A byte outside a frame that doesn't begin a command.
    Stray(u8),
}
