//! The lines of a board's messages with names, chunk after chunk.

ghost use Rattle.std.specs.Prelude.{◌≡◌, ◌≢◌, [], length, refl, false, OnErr, OnOk};
ghost use Rattle.dgt_decode.specs.Grammar.{unfinished_message};
ghost use Rattle.dgt_decode.specs.Feeding.{IsWholeMessage, event_content, event_found_in};
ghost use Rattle.dgt_lines.specs.Lines.{unfinished_line};
ghost use Rattle.dgt_lines.specs.Marks.{Waits};
ghost use Rattle.dgt_lines.specs.Printing.{GathersOne, HasNamedLines, HasPrintedNames, IsNamedLine};

use crate::chunks::LINES_ROOM;
use crate::faults::RunFault;
use crate::gathering::Outgoing;
use crate::lines::{put_text, write_end};
use crate::naming::put_name;
use crate::printers::Printer;
use crate::streams::Sink;
use dgt_decode::{Event, Found, Framer, laws};

/// The unfinished message, while lines with names are printed.
#[derive(Drop)]
pub(crate) struct Named {
    pub(crate) framer: Framer,
}

// The lines of events, with names.
impl Printer<LINES_ROOM> for Named {
    ghost has_lines = { λ first. HasNamedLines };

    ghost has_printed = { λ first now bytes text. HasPrintedNames now.framer bytes text };

    ghost are_lines = { λ first now bytes text printed.
        (unfinished_line (length bytes) (unfinished_message bytes), (printed.said, refl)) };

    fn gather<W: Sink>(
        &mut self,
        outgoing: &mut Outgoing<LINES_ROOM>,
        offset: u64,
        rest: &[u8],
        writer: &mut W,
    ) -> Result<usize, RunFault> {
        laws::chunks_in_a_row();
        laws::unfinished_append();
        let advanced = self.framer.advance(rest);
        if let Some(found) = &advanced.found {
            let end = offset + advanced.used as u64;
            put_found(outgoing, writer, end, &self.framer, found)?;
        }
        Ok(advanced.used)
    }

    fn print_end<W: Sink>(&self, offset: u64, writer: &mut W) -> Result<(), RunFault> {
        write_end(writer, offset, self.framer.unfinished_len())
    }

    fn lines_go_on() {
        laws::chunks_in_a_row();
    }
}

// Gathers the line of what a framer found, with its name.
fn put_found<W: Sink>(
    outgoing: &mut Outgoing<LINES_ROOM>,
    writer: &mut W,
    offset: u64,
    framer: &Framer,
    found: &Found,
) -> Result<(), RunFault>
    requires { found.now ≡ Found.Message → IsWholeMessage framer.now }
    ensures output { GathersOne W.Sink (outgoing.old, outgoing.new) writer.old writer.new
        result (IsNamedLine offset (event_found_in framer.now found.now)) }
    ensures dropped { OnErr result (outgoing.new ≡ []) }
    ensures no_flush { W.flushed writer.old ≡ false → W.flushed writer.new ≡ false }
    ensures waits { OnOk result (Waits outgoing.new (W.flushed writer.new)) }
{
    let event = framer.event(*found).unwrap();
    put_named(outgoing, writer, offset, &event)
}

// Gathers the line of an event with its name. The offset is the number of bytes up to and
// including its last one.
fn put_named<W: Sink>(
    outgoing: &mut Outgoing<LINES_ROOM>,
    writer: &mut W,
    offset: u64,
    event: &Event<'_>,
) -> Result<(), RunFault>
    ensures output { GathersOne W.Sink (outgoing.old, outgoing.new) writer.old writer.new
        result (IsNamedLine offset (event_content event.now)) }
    ensures dropped { OnErr result (outgoing.new ≡ []) }
    ensures no_flush { W.flushed writer.old ≡ false → W.flushed writer.new ≡ false }
    ensures waits { OnOk result (Waits outgoing.new (W.flushed writer.new)) }
{
    put_text(outgoing, writer, offset, event)?;
    put_name(outgoing, writer, event)?;
    outgoing.add(writer, b"\n")
}
