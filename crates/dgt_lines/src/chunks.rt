//! The lines of a board's messages, chunk after chunk.

ghost use Rattle.std.specs.Prelude.{◌≡◌, ◌++◌, IfSome, Some, length, refl, take};
ghost use Rattle.dgt_values.specs.Board.{square_number};
ghost use Rattle.dgt_message.specs.Content.Content.{field};
ghost use Rattle.dgt_decode.specs.Grammar.{Message, unfinished_message};
ghost use Rattle.dgt_decode.specs.Feeding.{FirstEvent};
ghost use Rattle.dgt_lines.specs.Lines.{unfinished_line};
ghost use Rattle.dgt_lines.specs.Printing.{HasEventLines, HasPrintedEvents};

use crate::faults::RunFault;
use crate::gathering::Outgoing;
use crate::lines::{put_field, put_found, write_end};
use crate::printers::Printer;
use crate::streams::Sink;
use dgt_decode::{Framer, field_update, laws};
use dgt_values::{Piece, Square};

/// Room for the lines of 4,096 bytes of field updates: 820 lines of at most 32 bytes.
pub const LINES_ROOM: usize = 32768;

/// The length of a field update, the most common message.
pub(crate) const FIELD: usize = 5;

/// The field update at the front of these bytes, if it is whole and no message is unfinished. The
/// framer needs no byte of it, which is faster.
#[inline(always)]
pub(crate) fn next_field(framer: &Framer, rest: &[u8]) -> Option<(Square, Piece)>
    ensures first { IfSome result (λ reported.
        FirstEvent (unfinished_message framer.now) rest.now FIELD
        (Some (Message (field (square_number reported.0) reported.1)))) }
    ensures held { IfSome result (λ _. unfinished_message framer.now
        ≡ unfinished_message (unfinished_message framer.now ++ take FIELD rest.now)) }
{
    if framer.unfinished_len() > 0 || rest.len() < FIELD {
        return None;
    }
    field_update(&rest[..FIELD])
}

// The lines of events.
impl Printer<LINES_ROOM> for Framer {
    ghost has_lines = { λ first. HasEventLines };

    ghost has_printed = { λ first kept bytes text. HasPrintedEvents kept bytes text };

    ghost are_lines = { λ first kept bytes text printed.
        (unfinished_line (length bytes) (unfinished_message bytes), (printed.said, refl)) };

    fn gather<W: Sink>(
        &mut self,
        outgoing: &mut Outgoing<LINES_ROOM>,
        offset: u64,
        rest: &[u8],
        writer: &mut W,
    ) -> Result<usize, RunFault> {
        laws::chunks_in_a_row();
        laws::unfinished_append();
        if let Some((square, piece)) = next_field(self, rest) {
            put_field(outgoing, writer, offset + FIELD as u64, square, piece)?;
            return Ok(FIELD);
        }
        let advanced = self.advance(rest);
        if let Some(found) = &advanced.found {
            let end = offset + advanced.used as u64;
            put_found(outgoing, writer, end, self, found)?;
        }
        Ok(advanced.used)
    }

    fn print_end<W: Sink>(&self, offset: u64, writer: &mut W) -> Result<(), RunFault> {
        write_end(writer, offset, self.unfinished_len())
    }

    fn lines_go_on() {
        laws::chunks_in_a_row();
    }
}
