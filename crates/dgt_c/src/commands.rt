//! Commands that a board has received, as structs of C.

ghost use Rattle.std.specs.Prelude.{◌≡◌, option_map};
ghost use Rattle.dgt_command.specs.Content.{command_content, command_event_content};
ghost use Rattle.dgt_command.specs.Encoding.{command_encoding};
ghost use Rattle.dgt_c.specs.Commands.{command_reported, id_of, read_reported, word_said};
ghost use Rattle.dgt_c.specs.Slices.{overwritten};

use crate::copying::overwrite;
use crate::header::{
    COMMAND_BAD_END, COMMAND_BAD_SIZE, COMMAND_BAD_START, COMMAND_NONE, COMMAND_READ,
    COMMAND_STRAY, DgtCommand, NO_WORD,
};
use dgt_command::{Command, CommandEvent, MAX_WORD, clock_id, encode};

fn message_id(command: &Command<'_>) -> u8
    ensures { result ≡ id_of (command_content command.now) }
{
    match command {
        Command::ClockMessage(message) => clock_id(message),
        _ => 0,
    }
}

// Reports a command, and copies as many of its bytes as fit.
pub(crate) fn report_read(command: &Command<'_>, out: &mut [u8]) -> DgtCommand
    ensures reported { result ≡ read_reported (command_content command.now) }
    ensures word { out.new
        ≡ overwritten out.old (command_encoding (command_content command.now)) }
{
    let most = dgt_command::length(command);
    let mut word = [0; MAX_WORD];
    let word_len = match encode(command, &mut word[..most]) {
        Ok(word_len) => word_len,
        Err(_) => unreachable!(),
    };
    overwrite(&word[..word_len], out);
    DgtCommand {
        kind: COMMAND_READ,
        code: word[0],
        id: message_id(command),
        word_len,
        ..NO_WORD
    }
}

/// Reports a command, a fault, or nothing. For a command, as many of its bytes are copied as fit.
pub(crate) fn report_command(event: &Option<CommandEvent<'_>>, out: &mut [u8]) -> DgtCommand
    ensures reported { result ≡ command_reported (option_map command_event_content event.now) }
    ensures word { out.new
        ≡ overwritten out.old (word_said (option_map command_event_content event.now)) }
{
    let (kind, byte) = match event {
        None => (COMMAND_NONE, 0),
        Some(CommandEvent::Command(command)) => return report_read(command, out),
        Some(CommandEvent::BadSize) => (COMMAND_BAD_SIZE, 0),
        Some(CommandEvent::BadStart) => (COMMAND_BAD_START, 0),
        Some(CommandEvent::BadEnd) => (COMMAND_BAD_END, 0),
        Some(CommandEvent::Stray(byte)) => (COMMAND_STRAY, *byte),
    };
    DgtCommand {
        kind,
        byte,
        ..NO_WORD
    }
}
