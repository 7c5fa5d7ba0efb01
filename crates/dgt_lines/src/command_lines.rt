//! The line of a command.

ghost use Rattle.std.specs.Prelude.{◌≡◌, ◌+◌, ◌≤◌, ◌++◌, false, length, OnOk};
ghost use Rattle.dgt_command.specs.Content.{command_event_content};
ghost use Rattle.dgt_lines.specs.Writing.{Writes};
ghost use Rattle.dgt_lines.specs.CommandLines.{command_line};

use crate::command_wording::push_event;
use crate::faults::RunFault;
use crate::gathering::Outgoing;
use crate::streams::Sink;
use dgt_command::CommandEvent;

/// Room for the line of a command.
pub(crate) const COMMAND_ROOM: usize = 600;

/// Adds the line of an event. The offset is the number of bytes up to and including its last one.
pub(crate) fn push_line<const ROOM: usize>(
    text: &mut Outgoing<ROOM>,
    offset: u64,
    event: &CommandEvent<'_>,
)
    requires { length text.old + COMMAND_ROOM ≤ ROOM }
    ensures { text.new ≡ text.old ++ command_line offset (command_event_content event.now) }
{
    text.push_decimal(offset, 8);
    text.push(b" ");
    push_event(text, event);
    text.push(b"\n");
}

/// Writes the line of an event, without a flush.
///
/// The line `00000006 beep 3`, for example, consists of the offset, a space, the words of the
/// command and a line feed. The offset counts the bytes up to and including the last one of the
/// event. It is decimal, with leading zeros to at least eight digits.
///
/// Returns `WriteFailed` if the writer refuses. The writer then took a prefix of the line, and gets
/// nothing more.
pub fn write_command<W: Sink>(
    writer: &mut W,
    offset: u64,
    event: &CommandEvent<'_>,
) -> Result<(), RunFault>
    ensures output { Writes W.Sink writer.old writer.new result
        (command_line offset (command_event_content event.now)) }

    // nothing is flushed: the line waits for a flush, and what waited before still does
    ensures unflushed { OnOk result (W.flushed writer.new ≡ false) }
    ensures no_flush { W.flushed writer.old ≡ false → W.flushed writer.new ≡ false }
{
    let mut text = Outgoing::<COMMAND_ROOM>::new();
    push_line(&mut text, offset, event);
    text.write_out(writer)
}
