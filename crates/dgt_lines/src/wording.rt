//! The texts of a board's messages.

ghost use Rattle.std.specs.Prelude.{◌≡◌, ◌≢◌, ◌+◌, ◌<◌, ◌≤◌, ℕ, List, [], ◌++◌, ◌∷◌, codes, length, decimal, map};
ghost use Rattle.dgt_values.specs.Bytes.{number};
ghost use Rattle.dgt_values.specs.Board.{pieces_of, square_number};
ghost use Rattle.dgt_message.specs.declared.known.KnownCode.{KnownCode};
ghost use Rattle.dgt_message.specs.Content.{carried_as, clock_message, clock_seen, content, absence_seen, answer_seen, time_seen, times_seen};
ghost use Rattle.dgt_message.specs.Content.Content.{dump, field, times, no_clock, ack};
ghost use Rattle.dgt_decode.specs.Grammar.{Cut, Refused, Stray};
ghost use Rattle.dgt_decode.specs.Feeding.{event_content, event_found_in};
ghost use Rattle.dgt_lines.specs.Lines.{byte_text, event_text, fault_text, message_text, reading_text};
ghost use Rattle.dgt_lines.specs.Wording.{text_with};

use crate::clocks::time_text;
use crate::gathering::Outgoing;
use dgt_decode::{Event, Found};
use dgt_message::{BodyFault, Clock, ClockAck, Message, NoClock, Reading, Times, serial_bytes};
use dgt_values::{Body, Piece, Position, SevenBit, Square};

/// Adds the text of an event up to the bytes that it carries, and returns these.
#[tactic(auto, unfolding(crate::specs::Lines::event_text))]
pub(crate) fn push_event<'a, const ROOM: usize>(
    text: &mut Outgoing<ROOM>,
    event: &Event<'a>,
) -> Option<Body<'a>>
    requires { length text.old + 100 ≤ ROOM }
    ensures text { text_with text.new result ≡ text.old ++ event_text (event_content event.now) }
    ensures room { length text.new < ROOM }
{
    match event {
        Event::Message(message) => return push_message(text, message),
        Event::Refused { code, fault } => push_refusal(text, *code, *fault),
        Event::Cut { have } => push_cut(text, *have),
        Event::BadLength => text.push(b"badlength"),
        Event::Stray(byte) => push_stray(text, *byte),
    }
    None
}

/// Adds the text of what was found, unless it is a message.
#[tactic(auto, unfolding(crate::specs::Lines::event_text))]
pub(crate) fn push_fault<const ROOM: usize>(text: &mut Outgoing<ROOM>, fault: Found)
    requires room { length text.old + 100 ≤ ROOM }
    requires fault { fault ≢ Found.Message }
    ensures text { (bytes : List ℕ) →
        text.new ≡ text.old ++ event_text (event_found_in bytes fault) }
    ensures room { length text.new < ROOM }
{
    match fault {
        Found::Message => {}
        Found::Cut { have } => push_cut(text, have),
        Found::BadLength => text.push(b"badlength"),
        Found::Stray(byte) => push_stray(text, byte),
    }
}

// The text of a message that was cut off.
fn push_cut<const ROOM: usize>(text: &mut Outgoing<ROOM>, have: usize)
    requires { length text.old + 100 ≤ ROOM }
    ensures text { text.new ≡ text.old ++ event_text (Cut have) }
    ensures room { length text.new < ROOM }
{
    text.push(b"cut ");
    text.push_decimal(have as u64, 1);
}

// The text of a byte outside all messages.
#[tactic(auto, unfolding(crate::specs::Lines::event_text))]
fn push_stray<const ROOM: usize>(text: &mut Outgoing<ROOM>, byte: u8)
    requires { length text.old + 100 ≤ ROOM }
    ensures text { text.new ≡ text.old ++ event_text (Stray byte) }
    ensures room { length text.new < ROOM }
{
    text.push(b"stray ");
    text.push_hex(&[byte]);
}

#[tactic(auto, unfolding(crate::specs::Lines::message_text))]
fn push_message<'a, const ROOM: usize>(
    text: &mut Outgoing<ROOM>,
    message: &Message<'a>,
) -> Option<Body<'a>>
    requires { length text.old + 100 ≤ ROOM }
    ensures text { text_with text.new result ≡ text.old ++ message_text (content message.now) }
    ensures room { length text.new < ROOM }
{
    match message {
        Message::Dump(position) => push_dump(text, position),
        Message::Field { square, piece } => push_field(text, *square, *piece),
        Message::Times(times) => push_times(text, *times),
        Message::NoClock(absence) => push_absence(text, *absence),
        Message::Ack(answer) => push_ack(text, *answer),
        Message::Serial(digits) => push_serial(text, digits),
        Message::Version { main, sub } => push_version(text, *main, *sub),
        Message::Trademark(body) => {
            text.push(b"trademark ");
            return Some(*body);
        }
        Message::Battery(body) => {
            text.push(b"battery ");
            return Some(*body);
        }
        Message::LongSerial(body) => {
            text.push(b"longserial ");
            return Some(*body);
        }
        Message::Other { code, body } => {
            push_other(text, code.get());
            return Some(*body);
        }
    }
    None
}

#[tactic(auto, unfolding(crate::specs::Lines::message_text))]
fn push_dump<const ROOM: usize>(text: &mut Outgoing<ROOM>, position: &Position)
    requires { length text.old + 100 ≤ ROOM }
    ensures text { text.new ≡ text.old ++ message_text (dump (pieces_of position.now)) }
    ensures room { length text.new < ROOM }
{
    text.push(b"dump ");
    text.push(position.placement().as_bytes());
}

#[tactic(auto, unfolding(crate::specs::Lines::message_text))]
fn push_version<const ROOM: usize>(text: &mut Outgoing<ROOM>, main: SevenBit, sub: SevenBit)
    requires { length text.old + 100 ≤ ROOM }
    ensures text { text.new ≡ text.old
        ++ message_text (carried_as KnownCode.Version (number main ∷ number sub ∷ [])) }
    ensures room { length text.new < ROOM }
{
    text.push(b"version ");
    text.push_decimal(main.get() as u64, 1);
    text.push(b".");
    text.push_decimal(sub.get() as u64, 1);
}

// Adds the text of a code without a name, up to the bytes that follow it.
fn push_other<const ROOM: usize>(text: &mut Outgoing<ROOM>, code: SevenBit)
    requires { length text.old + 100 ≤ ROOM }
    ensures text { text.new ≡ text.old
        ++ (codes "other " ++ (byte_text (number code) ++ codes " ")) }
    ensures room { length text.new < ROOM }
{
    text.push(b"other ");
    text.push_hex(&[code.get()]);
    text.push(b" ");
}

/// Adds the text of a square and its piece.
#[tactic(auto, unfolding(crate::specs::Lines::message_text))]
pub(crate) fn push_field<const ROOM: usize>(text: &mut Outgoing<ROOM>, square: Square, piece: Piece)
    requires { length text.old + 100 ≤ ROOM }
    ensures text { text.new ≡ text.old ++ message_text (field (square_number square) piece) }
    ensures len { length text.new ≡ length text.old + 10 }
{
    let [file, rank] = square.name();
    text.push(b"field ");
    text.push(&[file, rank, b' ', piece.letter() as u8]);
}

/// Adds the text of a host's clock.
pub(crate) fn push_clock<const ROOM: usize>(text: &mut Outgoing<ROOM>, clock: Clock)
    requires { length text.old + 100 ≤ ROOM }
    ensures text { text.new ≡ text.old ++ message_text (clock_message (clock_seen clock)) }
    ensures room { length text.new ≤ length text.old + 28 }
{
    match clock {
        Clock::Times(times) => push_times(text, times),
        Clock::NoClock(absence) => push_absence(text, absence),
    }
}

// The text of the times that a clock shows.
#[tactic(auto, unfolding(crate::specs::Lines::message_text))]
fn push_times<const ROOM: usize>(text: &mut Outgoing<ROOM>, readings: Times)
    requires { length text.old + 100 ≤ ROOM }
    ensures text { text.new ≡ text.old ++ message_text (times (times_seen readings)) }
    ensures len { length text.new ≡ length text.old + 28 }
{
    text.push(b"times ");
    push_reading(text, readings.first());
    text.push(b" ");
    push_reading(text, readings.second());
    push_byte(text, readings.status().code().get());
}

/// Adds the time that a clock shows for a side, and its flags.
pub(crate) fn push_reading<const ROOM: usize>(text: &mut Outgoing<ROOM>, reading: Reading)
    requires { length text.old + 9 ≤ ROOM }
    ensures text { text.new ≡ text.old ++ reading_text (time_seen reading) }
    ensures len { length text.new ≡ length text.old + 9 }
{
    text.push(&time_text(reading));
    text.push(&[b' ', b'0' + reading.flags()]);
}

// The text of a board without a clock.
#[tactic(auto, unfolding(crate::specs::Lines::message_text))]
fn push_absence<const ROOM: usize>(text: &mut Outgoing<ROOM>, absence: NoClock)
    requires { length text.old + 100 ≤ ROOM }
    ensures text { text.new ≡ text.old ++ message_text (no_clock (absence_seen absence)) }
    ensures len { length text.new ≡ length text.old + 23 }
{
    text.push(b"noclock ");
    text.push_hex(&absence.raw_bytes());
    push_byte(text, absence.status().code().get());
}

fn push_ack<const ROOM: usize>(text: &mut Outgoing<ROOM>, answer: ClockAck)
    requires { length text.old + 100 ≤ ROOM }
    ensures text { text.new ≡ text.old ++ message_text (ack (answer_seen answer)) }
    ensures len { length text.new ≡ length text.old + 18 }
{
    text.push(b"ack");
    for byte in ack_bytes(answer) {
        push_byte(text, byte);
    }
}

fn ack_bytes(answer: ClockAck) -> [u8; 5]
    ensures bytes { result ≡ (answer_seen answer).ack ++ (answer_seen answer).status ∷ [] }
    ensures len { length result ≡ 5 }
{
    let [a, b, c, d] = answer.ack;
    [a, b, c, d, answer.status.get()]
}

// A space, and a byte.
fn push_byte<const ROOM: usize>(text: &mut Outgoing<ROOM>, byte: u8)
    requires { length text.old + 3 ≤ ROOM }
    ensures text { text.new ≡ text.old ++ 32 ∷ byte_text byte }
    ensures len { length text.new ≡ length text.old + 3 }
{
    text.push(b" ");
    text.push_hex(&[byte]);
}

#[tactic(auto, unfolding(crate::specs::Lines::message_text))]
fn push_serial<const ROOM: usize>(text: &mut Outgoing<ROOM>, digits: &[SevenBit; 5])
    requires { length text.old + 100 ≤ ROOM }
    ensures text { text.new
        ≡ text.old ++ message_text (carried_as KnownCode.Serial (map number digits.now)) }
    ensures len { length text.new ≡ length text.old + 17 }
{
    text.push(b"serial ");
    text.push_hex(&serial_bytes(digits));
}

#[tactic(auto, unfolding(crate::specs::Lines::event_text))]
fn push_refusal<const ROOM: usize>(text: &mut Outgoing<ROOM>, code: SevenBit, fault: BodyFault)
    requires { length text.old + 100 ≤ ROOM }
    ensures text { text.new ≡ text.old ++ event_text (Refused (number code) fault) }
    ensures room { length text.new < ROOM }
{
    text.push(b"refused ");
    text.push_hex(&[code.get()]);
    push_body_fault(text, fault);
}

// A space, and the fault of a body.
fn push_body_fault<const ROOM: usize>(text: &mut Outgoing<ROOM>, fault: BodyFault)
    requires { length text.old + 32 ≤ ROOM }
    ensures text { text.new ≡ text.old ++ 32 ∷ fault_text fault }
    ensures room { length text.new ≤ length text.old + 32 }
{
    match fault {
        BodyFault::WrongSize => text.push(b" wrongsize"),
        BodyFault::BadPiece { at } => push_place(text, b" badpiece ", at),
        BodyFault::BadSquare { at } => push_place(text, b" badsquare ", at),
        BodyFault::BadReading { at } => push_place(text, b" badreading ", at),
    }
}

// A word, and an offset.
fn push_place<const ROOM: usize>(text: &mut Outgoing<ROOM>, word: &[u8], at: usize)
    requires { length text.old + length word.now + 20 ≤ ROOM }
    ensures text { text.new ≡ text.old ++ (word.now ++ decimal at) }
    ensures room { length text.new ≤ length text.old + length word.now + 20 }
{
    text.push(word);
    text.push_decimal(at as u64, 1);
}
