//! C calls that encode and view messages without a handle.

ghost use Rattle.std.specs.Prelude.{◌≡◌, ◌≤◌, false, IsTrue, MatchOption};
ghost use Rattle.dgt_values.specs.Bytes.{body_bytes};
ghost use Rattle.dgt_message.specs.Clock.{IsAck};
ghost use Rattle.dgt_message.specs.Content.{IsCarried, answer_seen};
ghost use Rattle.dgt_c.specs.Encoding.{EncodesMessage, IsCodeAndBody, ReadsMessage, encoded_reported, view_reported};

use crate::checking::{read_position, read_seven_bits};
use crate::clocks::read_clock;
use crate::events::report;
use crate::header::{
    DONE, DgtEncoded, DgtEvent, EVENT_ACK, EVENT_BATTERY, EVENT_DUMP, EVENT_FIELD,
    EVENT_LONG_SERIAL, EVENT_NO_CLOCK, EVENT_OTHER, EVENT_SERIAL, EVENT_TIMES, EVENT_TRADEMARK,
    EVENT_VERSION, NO_ROOM, NOTHING_ENCODED,
};
use dgt_decode::Event;
use dgt_message::{Clock, ClockAck, Message, OtherCode, encode, view};
use dgt_values::{Body, NoRoom, Piece, SevenBit, Square};

pub(crate) fn encoded_for_c(outcome: Result<usize, NoRoom>) -> DgtEncoded
    ensures { result ≡ encoded_reported outcome }
{
    let (status, bytes) = match outcome {
        Ok(bytes) => (DONE, bytes),
        Err(NoRoom { need }) => (NO_ROOM, need),
    };
    DgtEncoded { status, bytes }
}

// These bytes as a message body, if they are one.
fn read_body(body: &[u8]) -> Option<Body<'_>>
    ensures { MatchOption result (¬ (IsCarried body.now))
        (λ read. (body_bytes read ≡ body.now) × IsCarried body.now) }
{
    Body::new(body).ok()
}

// The acknowledgement of these bytes, if the last one is a status.
fn read_ack(ack: [u8; 4], status: u8) -> Option<ClockAck>
    ensures { MatchOption result (128 ≤ status) (λ read. IsAck (answer_seen read)
        × ((answer_seen read).ack ≡ ack) × ((answer_seen read).status ≡ status)) }
{
    let status = SevenBit::try_from(status).ok()?;
    Some(ClockAck { ack, status })
}

/// The message in the struct and the body, if it is valid.
pub(crate) fn read_message<'a>(said: &DgtEvent, body: &'a [u8]) -> Option<Message<'a>>
    ensures { ReadsMessage said.now body.now result }
{
    match said.kind {
        EVENT_DUMP => Some(Message::Dump(read_position(&said.pieces)?)),
        EVENT_FIELD => Some(Message::Field {
            square: Square::from_index(said.square).ok()?,
            piece: Piece::from_code(said.piece).ok()?,
        }),
        EVENT_TIMES => match read_clock(&said.clock)? {
            Clock::Times(times) => Some(Message::Times(times)),
            Clock::NoClock(_) => None,
        },
        EVENT_NO_CLOCK => match read_clock(&said.clock)? {
            Clock::NoClock(absence) => Some(Message::NoClock(absence)),
            Clock::Times(_) => None,
        },
        EVENT_ACK => Some(Message::Ack(read_ack(said.ack, said.ack_status)?)),
        EVENT_SERIAL => Some(Message::Serial(read_seven_bits(&said.serial)?)),
        EVENT_TRADEMARK => Some(Message::Trademark(read_body(body)?)),
        EVENT_VERSION => Some(Message::Version {
            main: SevenBit::try_from(said.main_number).ok()?,
            sub: SevenBit::try_from(said.sub_number).ok()?,
        }),
        EVENT_BATTERY => Some(Message::Battery(read_body(body)?)),
        EVENT_LONG_SERIAL => Some(Message::LongSerial(read_body(body)?)),
        EVENT_OTHER => Some(Message::Other {
            code: OtherCode::new(SevenBit::try_from(said.code).ok()?).ok()?,
            body: read_body(body)?,
        }),
        _ => None,
    }
}

/// Writes the message in the struct and the body at the beginning of the slice.
#[unsafe(no_mangle)]
pub extern "C" fn dgt_encode_message(said: &DgtEvent, body: &[u8], out: &mut [u8]) -> DgtEncoded
    ensures encodes { EncodesMessage said.now body.now out.old out.new result }
{
    match read_message(said, body) {
        Some(message) => encoded_for_c(encode(&message, out)),
        None => NOTHING_ENCODED,
    }
}

/// Writes the message with this code and this body to the struct, or the fault of the body.
///
/// Returns false if no message has this code or no body these bytes; then the struct is unchanged.
#[unsafe(no_mangle)]
pub extern "C" fn dgt_view_message(code: u8, body: &[u8], event: &mut DgtEvent) -> bool
    ensures views { IsTrue result → IsCodeAndBody code body.now
        × (event.new ≡ view_reported code body.now) }
    ensures refused { result ≡ false → ¬ (IsCodeAndBody code body.now) × (event.new ≡ event.old) }
{
    let Ok(code) = SevenBit::try_from(code) else {
        return false;
    };
    let Some(body) = read_body(body) else {
        return false;
    };
    let seen = match view(code, body) {
        Ok(message) => Event::Message(message),
        Err(fault) => Event::Refused { code, fault },
    };
    report(&Some(seen), event);
    true
}
