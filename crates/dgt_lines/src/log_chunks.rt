//! The lines of a board's stored events, chunk after chunk.

ghost use Rattle.std.specs.Prelude.{◌≡◌, ◌-◌, ◌^◌, ◌<◌, [], List, length, refl};
ghost use Rattle.dgt_message.specs.Content.{content};
ghost use Rattle.dgt_decode.specs.Grammar.{Message as MessageEvent};
ghost use Rattle.dgt_decode.specs.Feeding.{IsWholeMessage, event_found_in};
ghost use Rattle.dgt_stored.specs.Stored.{Says, StoredContent};
ghost use Rattle.dgt_lines.specs.Logs.{log_body, stored_lines};
ghost use Rattle.dgt_lines.specs.Printing.{HasLogLines, HasPrintedLog, Puts};

use crate::faults::RunFault;
use crate::gathering::Outgoing;
use crate::laws::writes_in_a_row;
use crate::logs::put_body;
use crate::printers::Printer;
use crate::streams::Sink;
use dgt_decode::{Event, Found, Framer, laws};
use dgt_message::Message;

/// Room for about 1,000 lines of stored events.
pub const LOG_ROOM: usize = 32768;

// The code of a message of stored events.
const LOG_CODE: u8 = 0x0f;

// The body, if the framer found such a message.
fn body_found<'a>(framer: &'a Framer, found: Found) -> &'a [u8]
    requires { found ≡ Found.Message → IsWholeMessage framer.now }
    ensures { result.now ≡ log_body (event_found_in framer.now found) }
{
    match framer.event(found) {
        Some(Event::Message(message)) => body_of(&message),
        _ => &[],
    }
}

fn body_of<'a>(message: &Message<'a>) -> &'a [u8]
    ensures { result.now ≡ log_body (MessageEvent (content message.now)) }
{
    let Message::Other { code, body } = message else {
        return &[];
    };
    if code.get().get() != LOG_CODE {
        return &[];
    }
    body.bytes()
}

// Adds the lines of such a message, if the framer found one.
fn put_found<W: Sink>(
    outgoing: &mut Outgoing<LOG_ROOM>,
    writer: &mut W,
    offset: u64,
    framer: &Framer,
    found: Found,
) -> Result<(), RunFault>
    requires { found ≡ Found.Message → IsWholeMessage framer.now }
    ensures { (things : List StoredContent)
        × Says (log_body (event_found_in framer.now found)) things
        × Puts W.Sink (outgoing.old, outgoing.new) writer.old writer.new result
        (stored_lines (offset - length (log_body (event_found_in framer.now found))) things) }
{
    dgt_stored::laws::bodies_are_read();
    let body = body_found(framer, found);
    let before = offset.saturating_sub(body.len() as u64);
    put_body(outgoing, writer, before, body)
}

/// The unfinished message, while the stored events are printed.
#[derive(Drop)]
pub(crate) struct Log {
    pub(crate) framer: Framer,
}

// The lines of stored events.
impl Printer<LOG_ROOM> for Log {
    ghost has_lines = { λ first. HasLogLines };

    ghost has_printed = { λ first now bytes text. HasPrintedLog now.framer bytes text };

    ghost are_lines = { λ first now bytes text printed. ([], (printed.has, refl)) };

    fn gather<W: Sink>(
        &mut self,
        outgoing: &mut Outgoing<LOG_ROOM>,
        offset: u64,
        rest: &[u8],
        writer: &mut W,
    ) -> Result<usize, RunFault> {
        laws::chunks_in_a_row();
        laws::unfinished_append();
        let framer = &mut self.framer;
        let advanced = framer.advance(rest);
        if let Some(found) = advanced.found {
            let end = offset + advanced.used as u64;
            put_found(outgoing, writer, end, framer, found)?;
        }
        Ok(advanced.used)
    }

    fn print_end<W: Sink>(&self, _offset: u64, _writer: &mut W) -> Result<(), RunFault> {
        writes_in_a_row::<W>();
        Ok(())
    }

    fn lines_go_on() {
        laws::chunks_in_a_row();
        dgt_stored::laws::bodies_are_read();
    }
}
