//! Which reply a command requests.

ghost use Rattle.std.specs.Prelude.{◌≡◌};
ghost use Rattle.dgt_command.specs.Content.{command_content, requested_kind};

use crate::command::Command;
use dgt_values::Kind;

/// The kind of the reply that a command requests, if it has one.
pub fn kind_of_command(command: &Command<'_>) -> Option<Kind>
    ensures { result ≡ requested_kind (command_content command.now) }
{
    match command {
        Command::Dump => Some(Kind::Dump),
        Command::Serial => Some(Kind::Serial),
        Command::Trademark => Some(Kind::Trademark),
        Command::Version => Some(Kind::Version),
        Command::Battery => Some(Kind::Battery),
        Command::LongSerial => Some(Kind::LongSerial),
        _ => None,
    }
}
