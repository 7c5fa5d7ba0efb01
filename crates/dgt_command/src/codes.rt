//! The code of each command: its first byte.

ghost use Rattle.std.specs.Prelude.{◌≡◌};
ghost use Rattle.dgt_command.specs.Encoding.{bare_command, command_code};
ghost use Rattle.dgt_command.specs.Content.{command_content};

use crate::command::Command;

// The first byte of a clock message, and the two that enclose what follows its size.
pub(crate) const CLOCK_MESSAGE: u8 = 0x2b;

pub(crate) const START: u8 = 0x03;

pub(crate) const END: u8 = 0x00;

// The first byte of an LED frame.
pub(crate) const LEDS: u8 = 0x60;

// The commands of one byte.
const RESET: u8 = 0x40;

const CLOCK: u8 = 0x41;

const DUMP: u8 = 0x42;

const UPDATE: u8 = 0x43;

const UPDATE_BOARD: u8 = 0x44;

const SERIAL: u8 = 0x45;

const TRADEMARK: u8 = 0x47;

const UPDATE_NICE: u8 = 0x4b;

const BATTERY: u8 = 0x4c;

const VERSION: u8 = 0x4d;

const LONG_SERIAL: u8 = 0x55;

// The first byte of the command.
pub(crate) fn first_byte(command: &Command) -> u8
    ensures { result ≡ command_code (command_content command.now) }
{
    match command {
        Command::ClockMessage(_) => CLOCK_MESSAGE,
        Command::Reset => RESET,
        Command::Clock => CLOCK,
        Command::Dump => DUMP,
        Command::Update => UPDATE,
        Command::UpdateBoard => UPDATE_BOARD,
        Command::Serial => SERIAL,
        Command::Trademark => TRADEMARK,
        Command::UpdateNice => UPDATE_NICE,
        Command::Battery => BATTERY,
        Command::Version => VERSION,
        Command::LongSerial => LONG_SERIAL,
        Command::Leds(_) => LEDS,
    }
}

// The command of one byte that is this byte, if there is one.
pub(crate) fn command_of_byte(byte: u8) -> Option<Command<'static>>
    ensures { result ≡ bare_command byte }
{
    match byte {
        RESET => Some(Command::Reset),
        CLOCK => Some(Command::Clock),
        DUMP => Some(Command::Dump),
        UPDATE => Some(Command::Update),
        UPDATE_BOARD => Some(Command::UpdateBoard),
        SERIAL => Some(Command::Serial),
        TRADEMARK => Some(Command::Trademark),
        UPDATE_NICE => Some(Command::UpdateNice),
        BATTERY => Some(Command::Battery),
        VERSION => Some(Command::Version),
        LONG_SERIAL => Some(Command::LongSerial),
        _ => None,
    }
}
