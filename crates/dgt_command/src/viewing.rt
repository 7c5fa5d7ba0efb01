//! Reads commands from their bytes.

ghost use Rattle.std.specs.Prelude.{◌≡◌, ◌+◌, ◌<◌, ◌≤◌, ◌∷◌, ◌++◌, [], length, IfNone, IfSome};
ghost use Rattle.dgt_command.specs.Content.{CommandContent, clock_content, command_content, payload_bytes};
ghost use Rattle.dgt_command.specs.Encoding.{EncodesCommand};

use crate::carried::{LedBytes, Payload};
use crate::clock::{ClockCommand, RawClock};
use crate::codes::{CLOCK_MESSAGE, END, LEDS, START, command_of_byte};
use crate::command::Command;
use crate::ids::KnownId;

/// The command with exactly these bytes, or `None` if there is none.
///
/// The command borrows what it carries from the slice.
pub fn view_command(bytes: &[u8]) -> Option<Command<'_>>
    ensures some { IfSome result (λ command. EncodesCommand (command_content command) bytes.now) }
    ensures none { IfNone result
        ((command : CommandContent) → EncodesCommand command bytes.now → ⊥) }
{
    match bytes {
        [byte] => command_of_byte(*byte),
        [CLOCK_MESSAGE, size, START, id, carried @ .., END]
            if carried.len() + 3 == *size as usize => {
            let carried = Payload { bytes: carried };
            Some(Command::ClockMessage(clock_command(*id, carried)))
        }
        [LEDS, size, leds @ ..] if leds.len() == *size as usize => {
            Some(Command::Leds(LedBytes { bytes: leds }))
        }
        _ => None,
    }
}

// The clock message with this id and these payload bytes.
fn clock_command(id: u8, carried: Payload<'_>) -> ClockCommand<'_>
    ensures id { (clock_content result).id ≡ id }
    ensures carried { (clock_content result).payload ≡ payload_bytes carried.entry }
{
    if let Ok(raw) = RawClock::new(id, carried) {
        return ClockCommand::Raw(raw);
    }
    let bytes = carried.bytes();
    match KnownId::with_number(id) {
        Some(KnownId::Display) => ClockCommand::Display {
            places: [bytes[2], bytes[1], bytes[0], bytes[5], bytes[4], bytes[3]],
            dots: bytes[6],
            beep: bytes[7],
        },
        Some(KnownId::Icons) => ClockCommand::Icons(carried),
        Some(KnownId::End) => ClockCommand::End,
        Some(KnownId::Button) => ClockCommand::Button,
        Some(KnownId::Version) => ClockCommand::Version,
        Some(KnownId::SetAndRun) => ClockCommand::SetAndRun {
            left: [bytes[0], bytes[1], bytes[2]],
            right: [bytes[3], bytes[4], bytes[5]],
            control: bytes[6],
        },
        Some(KnownId::Beep) => ClockCommand::Beep(bytes[0]),
        Some(KnownId::Text) => ClockCommand::Text {
            letters: [
                bytes[0], bytes[1], bytes[2], bytes[3], bytes[4], bytes[5], bytes[6], bytes[7],
            ],
            beep: bytes[8],
        },
        None => unreachable!(),
    }
}
