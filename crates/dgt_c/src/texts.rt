//! The text of an event for C.

ghost use Rattle.std.specs.Prelude.{[], ◌∷◌, ◌++◌, ◌≡◌, MatchOption};
ghost use Rattle.dgt_values.specs.Bytes.{WritesPrefix};
ghost use Rattle.dgt_message.specs.declared.viewing.BodyFault.{BodyFault};
ghost use Rattle.dgt_decode.specs.Feeding.{event_content};
ghost use Rattle.dgt_lines.specs.Lines.{event_text};
ghost use Rattle.dgt_c.specs.Texts.{ReadsEvent, SaysFault, WritesText};

use crate::encoding::{encoded_for_c, read_message};
use crate::header::{
    DgtEncoded, DgtEvent, EVENT_BAD_LENGTH, EVENT_CUT, EVENT_REFUSED, EVENT_STRAY, FAULT_BAD_PIECE,
    FAULT_BAD_READING, FAULT_BAD_SQUARE, FAULT_WRONG_SIZE, NOTHING_ENCODED,
};
use dgt_decode::Event;
use dgt_lines::format_event;
use dgt_message::BodyFault;
use dgt_values::{NoRoom, SevenBit};

// The fault in the struct, if it contains one.
fn read_fault(said: &DgtEvent) -> Option<BodyFault>
    ensures { MatchOption result ((fault : BodyFault) → ¬ (SaysFault said.now fault))
        (λ read. SaysFault said.now read) }
{
    match said.fault {
        FAULT_WRONG_SIZE => Some(BodyFault::WrongSize),
        FAULT_BAD_PIECE => Some(BodyFault::BadPiece { at: said.at }),
        FAULT_BAD_SQUARE => Some(BodyFault::BadSquare { at: said.at }),
        FAULT_BAD_READING => Some(BodyFault::BadReading { at: said.at }),
        _ => None,
    }
}

// The event in the struct, if it contains one.
fn read_event<'a>(said: &DgtEvent, body: &'a [u8]) -> Option<Event<'a>>
    ensures { ReadsEvent said.now body.now result }
{
    match said.kind {
        EVENT_REFUSED => Some(Event::Refused {
            code: SevenBit::try_from(said.code).ok()?,
            fault: read_fault(said)?,
        }),
        EVENT_CUT => Some(Event::Cut { have: said.have }),
        EVENT_BAD_LENGTH => Some(Event::BadLength),
        EVENT_STRAY => Some(Event::Stray(said.byte)),
        _ => Some(Event::Message(read_message(said, body)?)),
    }
}

// Writes the text of an event and a zero byte at the beginning of the slice.
fn put_text(event: &Event<'_>, text: &mut [u8]) -> Result<usize, NoRoom>
    ensures { WritesPrefix (event_text (event_content event.now) ++ 0 ∷ []) text.old text.new
        result }
{
    let room = text.len().saturating_sub(1);
    match format_event(event, &mut text[..room]) {
        Ok(len) if len < text.len() => {
            text[len] = 0;
            Ok(len + 1)
        }
        Ok(len) => Err(NoRoom { need: len + 1 }),
        Err(NoRoom { need }) => Err(NoRoom { need: need + 1 }),
    }
}

/// Writes the text of the event in the struct and the body, and a zero byte, at the beginning of
/// the slice.
#[unsafe(no_mangle)]
pub extern "C" fn dgt_event_text(said: &DgtEvent, body: &[u8], text: &mut [u8]) -> DgtEncoded
    ensures text { WritesText said.now body.now text.old text.new result }
{
    match read_event(said, body) {
        Some(event) => encoded_for_c(put_text(&event, text)),
        None => NOTHING_ENCODED,
    }
}
