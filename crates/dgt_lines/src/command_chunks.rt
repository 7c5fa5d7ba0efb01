//! The lines of a host's commands, chunk after chunk.

ghost use Rattle.std.specs.Prelude.{length, refl};
ghost use Rattle.dgt_command.specs.Framing.{rest_of};
ghost use Rattle.dgt_lines.specs.CommandLines.{Prints};
ghost use Rattle.dgt_lines.specs.Lines.{unfinished_line};
ghost use Rattle.dgt_lines.specs.Printing.{HasCommandLines};

use crate::command_lines::{COMMAND_ROOM, push_line};
use crate::faults::RunFault;
use crate::gathering::Outgoing;
use crate::laws;
use crate::lines::write_end;
use crate::printers::Printer;
use crate::streams::Sink;
use dgt_command::WordFramer;

/// Room for about 1,500 lines of commands without operands.
pub const COMMANDS_ROOM: usize = 32768;

// The lines of a host's commands.
impl Printer<COMMANDS_ROOM> for WordFramer {
    ghost has_lines = { λ first. HasCommandLines };

    ghost has_printed = { λ first kept bytes text. Prints 0 bytes (rest_of kept) text };

    ghost are_lines = { λ first kept bytes text printed.
        (unfinished_line (length bytes) (rest_of kept), (rest_of kept, printed, refl)) };

    fn gather<W: Sink>(
        &mut self,
        outgoing: &mut Outgoing<COMMANDS_ROOM>,
        offset: u64,
        rest: &[u8],
        writer: &mut W,
    ) -> Result<usize, RunFault> {
        dgt_command::laws::parts_of_words();
        let advanced = self.advance(rest);
        if let Some(found) = advanced.found {
            let end = offset + advanced.used as u64;
            outgoing.make_room(writer, COMMAND_ROOM)?;
            push_line(outgoing, end, &self.event(found).unwrap());
        }
        Ok(advanced.used)
    }

    fn print_end<W: Sink>(&self, offset: u64, writer: &mut W) -> Result<(), RunFault> {
        write_end(writer, offset, self.partial())
    }

    fn lines_go_on() {
        laws::one_text();
        dgt_command::laws::parts_of_words();
    }
}
