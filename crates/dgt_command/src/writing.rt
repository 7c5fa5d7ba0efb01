//! Writes commands as bytes.

ghost use Rattle.std.specs.Prelude.{◌≡◌, ◌+◌, ◌<◌, ◌≤◌, [], ◌∷◌, ◌++◌, length, OnOk};
ghost use Rattle.dgt_values.specs.Bytes.{WritesPrefix};
ghost use Rattle.dgt_command.specs.Content.{clock_content, command_content};
ghost use Rattle.dgt_command.specs.Encoding.{command_encoding, EncodesCommand};

use crate::carried::MAX_PAYLOAD;
use crate::clock::ClockCommand;
use crate::codes::{END, START, first_byte};
use crate::command::Command;
use crate::framer::MAX_WORD;
use crate::ids::KnownId;
use dgt_values::NoRoom;

/// How many bytes the command takes: 1 to 257.
pub fn length(command: &Command) -> usize
    ensures length { result ≡ length (command_encoding (command_content command.now)) }
    ensures limit { result ≤ MAX_WORD }
{
    match command {
        Command::ClockMessage(message) => payload_length(message) + 5,
        Command::Leds(leds) => leds.bytes().len() + 2,
        _ => 1,
    }
}

/// Writes the command at the beginning of the slice, and returns how many bytes it takes. The bytes
/// after it stay as they were. Returns `NoRoom` if the slice is shorter than the command; then
/// nothing is written.
pub fn encode(command: &Command, out: &mut [u8]) -> Result<usize, NoRoom>
    ensures written { WritesPrefix (command_encoding (command_content command.now))
        out.old out.new result }
    ensures encodes { OnOk result
        (EncodesCommand (command_content command.now)
        (command_encoding (command_content command.now))) }
{
    let need = length(command);
    if out.len() < need {
        return Err(NoRoom { need });
    }
    write(command, &mut out[..need]);
    Ok(need)
}

// Fills the slice with the command.
fn write(command: &Command, out: &mut [u8])
    requires { length out.old ≡ length (command_encoding (command_content command.now)) }
    ensures { out.new ≡ command_encoding (command_content command.now) }
{
    let (head, tail) = out.split_at_mut(1);
    head.copy_from_slice(&[first_byte(command)]);
    match command {
        Command::ClockMessage(message) => write_clock(message, tail),
        Command::Leds(leds) => {
            let (size, lit) = tail.split_at_mut(1);
            size.copy_from_slice(&[leds.bytes().len() as u8]);
            lit.copy_from_slice(leds.bytes());
        }
        _ => {}
    }
}

// Fills the slice with the bytes of a clock message after its code.
fn write_clock(message: &ClockCommand, out: &mut [u8])
    requires { length out.old ≡ length (clock_content message.now).payload + 4 }
    ensures { out.new
        ≡ (length (clock_content message.now).payload + 3) ∷ 0x03 ∷ (clock_content message.now).id
        ∷ ((clock_content message.now).payload ++ 0x00 ∷ []) }
{
    let size = payload_length(message);
    let (head, tail) = out.split_at_mut(3);
    head.copy_from_slice(&[(size + 3) as u8, START, clock_id(message)]);
    let (body, end) = tail.split_at_mut(size);
    write_payload(message, body);
    end.copy_from_slice(&[END]);
}

/// The id of a clock message: the byte that determines its variant.
pub fn clock_id(message: &ClockCommand) -> u8
    ensures { result ≡ (clock_content message.now).id }
{
    match message {
        ClockCommand::Display { .. } => KnownId::Display.number(),
        ClockCommand::Icons(_) => KnownId::Icons.number(),
        ClockCommand::End => KnownId::End.number(),
        ClockCommand::Button => KnownId::Button.number(),
        ClockCommand::Version => KnownId::Version.number(),
        ClockCommand::SetAndRun { .. } => KnownId::SetAndRun.number(),
        ClockCommand::Beep(_) => KnownId::Beep.number(),
        ClockCommand::Text { .. } => KnownId::Text.number(),
        ClockCommand::Raw(raw) => raw.id(),
    }
}

// How many bytes a clock message carries.
fn payload_length(message: &ClockCommand) -> usize
    ensures exact { result ≡ length (clock_content message.now).payload }
    ensures short { result ≤ MAX_PAYLOAD }
{
    match message {
        ClockCommand::Display { .. } => 8,
        ClockCommand::Icons(payload) => payload.bytes().len(),
        ClockCommand::End | ClockCommand::Button | ClockCommand::Version => 0,
        ClockCommand::SetAndRun { .. } => 7,
        ClockCommand::Beep(_) => 1,
        ClockCommand::Text { .. } => 9,
        ClockCommand::Raw(raw) => raw.payload().bytes().len(),
    }
}

// Fills the slice with a clock message's payload.
fn write_payload(message: &ClockCommand, out: &mut [u8])
    requires { length out.old ≡ length (clock_content message.now).payload }
    ensures { out.new ≡ (clock_content message.now).payload }
{
    match message {
        ClockCommand::Display { places, dots, beep } => {
            let [a, b, c, d, e, f] = *places;
            out.copy_from_slice(&[c, b, a, f, e, d, *dots, *beep]);
        }
        ClockCommand::Icons(payload) => out.copy_from_slice(payload.bytes()),
        ClockCommand::End | ClockCommand::Button | ClockCommand::Version => {}
        ClockCommand::SetAndRun {
            left,
            right,
            control,
        } => {
            let [a, b, c] = *left;
            let [d, e, f] = *right;
            out.copy_from_slice(&[a, b, c, d, e, f, *control]);
        }
        ClockCommand::Beep(duration) => out.copy_from_slice(&[*duration]),
        ClockCommand::Text { letters, beep } => {
            let [a, b, c, d, e, f, g, h] = *letters;
            out.copy_from_slice(&[a, b, c, d, e, f, g, h, *beep]);
        }
        ClockCommand::Raw(raw) => out.copy_from_slice(raw.payload().bytes()),
    }
}
