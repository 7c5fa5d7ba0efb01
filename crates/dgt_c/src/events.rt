//! Events as structs of C.

ghost use Rattle.std.specs.Prelude.{◌≡◌, Some, length};
ghost use Rattle.dgt_values.specs.Bytes.{body_bytes};
ghost use Rattle.dgt_message.specs.Code.{known_number};
ghost use Rattle.dgt_message.specs.Content.{content};
ghost use Rattle.dgt_decode.specs.Feeding.{event_content, event_content_if_any};
ghost use Rattle.dgt_c.specs.Reported.{body_said, event_reported, message_reported, refused_reported, reported_at};

use crate::clocks::{absence_reported, times_reported};
use crate::header::{
    DgtEvent, EVENT_ACK, EVENT_BAD_LENGTH, EVENT_BATTERY, EVENT_CUT, EVENT_DUMP, EVENT_FIELD,
    EVENT_LONG_SERIAL, EVENT_NO_CLOCK, EVENT_OTHER, EVENT_REFUSED, EVENT_SERIAL, EVENT_STRAY,
    EVENT_TIMES, EVENT_TRADEMARK, EVENT_VERSION, FAULT_BAD_PIECE, FAULT_BAD_READING,
    FAULT_BAD_SQUARE, FAULT_WRONG_SIZE, NOTHING,
};
use dgt_decode::Event;
use dgt_message::{BodyFault, KnownCode, Message, serial_bytes};
use dgt_values::Body;

// Each struct is written in place, in C's memory: copying one takes longer. The functions that
// report an event are inlined, to avoid a copy of the event.
fn report_carried(kind: u8, code: u8, body: Body<'_>, out: &mut DgtEvent)
    ensures { out.new ≡ record out.old {
      kind = kind;
      code = code;
      body_len = length (body_bytes body.entry);
    } }
{
    out.kind = kind;
    out.code = code;
    out.body_len = body.bytes().len();
}

fn report_known(kind: u8, code: KnownCode, body: Body<'_>, out: &mut DgtEvent)
    ensures { out.new ≡ record out.old {
      kind = kind;
      code = known_number code;
      body_len = length (body_bytes body.entry);
    } }
{
    report_carried(kind, code.number(), body, out);
}

#[inline(always)]
fn report_message(message: &Message<'_>, out: &mut DgtEvent)
    requires { out.old ≡ NOTHING }
    ensures { out.new ≡ message_reported (content message.now) }
{
    match message {
        Message::Dump(position) => {
            out.kind = EVENT_DUMP;
            out.pieces = position.codes();
        }
        Message::Field { square, piece } => {
            out.kind = EVENT_FIELD;
            out.square = square.index();
            out.piece = piece.code();
        }
        Message::Times(times) => {
            out.kind = EVENT_TIMES;
            out.clock = times_reported(*times);
        }
        Message::NoClock(absence) => {
            out.kind = EVENT_NO_CLOCK;
            out.clock = absence_reported(*absence);
        }
        Message::Ack(answer) => {
            out.kind = EVENT_ACK;
            out.ack = answer.ack;
            out.ack_status = answer.status.get();
        }
        Message::Serial(serial) => {
            out.kind = EVENT_SERIAL;
            out.serial = serial_bytes(serial);
        }
        Message::Version { main, sub } => {
            out.kind = EVENT_VERSION;
            out.main_number = main.get();
            out.sub_number = sub.get();
        }
        Message::Trademark(body) => report_known(EVENT_TRADEMARK, KnownCode::Trademark, *body, out),
        Message::Battery(body) => report_known(EVENT_BATTERY, KnownCode::Battery, *body, out),
        Message::LongSerial(body) => report_known(
            EVENT_LONG_SERIAL,
            KnownCode::LongSerial,
            *body,
            out,
        ),
        Message::Other { code, body } => report_carried(EVENT_OTHER, code.get().get(), *body, out),
    }
}

fn report_refused(code: u8, fault: BodyFault, out: &mut DgtEvent)
    requires { out.old ≡ NOTHING }
    ensures { out.new ≡ refused_reported code fault }
{
    out.kind = EVENT_REFUSED;
    out.code = code;
    (out.fault, out.at) = match fault {
        BodyFault::WrongSize => (FAULT_WRONG_SIZE, 0),
        BodyFault::BadPiece { at } => (FAULT_BAD_PIECE, at),
        BodyFault::BadSquare { at } => (FAULT_BAD_SQUARE, at),
        BodyFault::BadReading { at } => (FAULT_BAD_READING, at),
    };
}

/// Reports an event.
#[inline(always)]
pub(crate) fn report_event(event: &Event<'_>, out: &mut DgtEvent)
    requires { out.old ≡ NOTHING }
    ensures { out.new ≡ event_reported (Some (event_content event.now)) }
{
    match event {
        Event::Message(message) => report_message(message, out),
        Event::Refused { code, fault } => report_refused(code.get(), *fault, out),
        Event::Cut { have } => {
            out.kind = EVENT_CUT;
            out.have = *have;
        }
        Event::BadLength => out.kind = EVENT_BAD_LENGTH,
        Event::Stray(byte) => {
            out.kind = EVENT_STRAY;
            out.byte = *byte;
        }
    }
}

/// Reports an event, or nothing.
#[inline(always)]
pub(crate) fn report(event: &Option<Event<'_>>, out: &mut DgtEvent)
    ensures { out.new ≡ event_reported (event_content_if_any event.now) }
{
    *out = NOTHING;
    if let Some(event) = event {
        report_event(event, out);
    }
}

/// Writes an event, or nothing, and its place to the struct.
#[inline(always)]
pub(crate) fn report_at(event: &Option<Event<'_>>, place: usize, out: &mut DgtEvent)
    ensures { out.new ≡ reported_at place (event_content_if_any event.now) }
{
    report(event, out);
    if event.is_some() {
        out.place = place;
    }
}

/// The body of a message that is carried unread, and otherwise no bytes.
#[inline(always)]
pub(crate) fn body_in<'a>(event: &Event<'a>) -> &'a [u8]
    ensures { result.now ≡ body_said (Some (event_content event.now)) }
{
    match event {
        Event::Message(Message::Trademark(body)) => body.bytes(),
        Event::Message(Message::Battery(body)) => body.bytes(),
        Event::Message(Message::LongSerial(body)) => body.bytes(),
        Event::Message(Message::Other { body, .. }) => body.bytes(),
        _ => &[],
    }
}

/// The same for an optional event.
#[inline(always)]
pub(crate) fn body_of<'a>(event: &Option<Event<'a>>) -> &'a [u8]
    ensures { result.now ≡ body_said (event_content_if_any event.now) }
{
    match event {
        Some(event) => body_in(event),
        None => &[],
    }
}
