//! Writes messages as bytes.

ghost use Rattle.std.specs.Prelude.{◌≡◌, ◌≤◌, ◌<◌, ◌++◌, [], ◌∷◌, length, map};
ghost use Rattle.dgt_values.specs.declared.bodies.TheConstants.{MAX_BODY};
ghost use Rattle.dgt_values.specs.Board.{square_number};
ghost use Rattle.dgt_values.specs.Bytes.{number, AreSevenBit, WritesPrefix};
ghost use Rattle.dgt_message.specs.Clock.{AreTimes, IsAbsence, IsAck, IsTime};
ghost use Rattle.dgt_message.specs.Code.{known_number};
ghost use Rattle.dgt_message.specs.Content.{absence_seen, answer_seen, content, time_seen, times_seen, IsMessage};
ghost use Rattle.dgt_message.specs.Content.Content.{field};
ghost use Rattle.dgt_message.specs.Encoding.{ack_encoding, body_encoding, mark_with, message_bytes, packed_decimal, encoding, time_bytes, times_bytes, Encodes};

use crate::clock::{ACK_MARK, ClockAck, NoClock, Times};
use crate::known::KnownCode;
use crate::message::Message;
use crate::readings::Reading;
use dgt_values::{NoRoom, Piece, SevenBit, Square};

/// How many bytes the message takes, including its header of three bytes: 3 to 16383.
pub fn length(message: &Message<'_>) -> usize
    ensures value { result ≡ length (encoding (content message.now)) }
    ensures in_range { (3 ≤ result) × (result < 16384) }
{
    body_length(message) + 3
}

/// Writes the message at the beginning of `out`, and returns how many bytes it takes. The bytes
/// after them stay as they are. Returns `NoRoom` with the message's length if `out` is shorter than
/// the message; then nothing is written.
///
/// An acknowledgement has several encodings. This writes the one with the mark in bytes 3 and 6 of
/// the message, and with D6 clear in both.
///
/// It is inlined: a caller that builds the message just before then contains only the code of its
/// variant.
#[inline(always)]
pub fn encode(message: &Message<'_>, out: &mut [u8]) -> Result<usize, NoRoom>
    ensures written { WritesPrefix (encoding (content message.now)) out.old out.new result }
    ensures encodes { Encodes (content message.now) (encoding (content message.now)) }
    ensures in_range { IsMessage (content message.now) }
{
    match message {
        Message::Dump(position) => write_known(KnownCode::Dump, &position.codes(), out),
        Message::Field { square, piece } => encode_field(*square, *piece, out),
        Message::Times(times) => write_known(KnownCode::Clock, &encode_times(*times), out),
        Message::NoClock(absence) => write_known(KnownCode::Clock, &absence_bytes(*absence), out),
        Message::Ack(answer) => write_known(KnownCode::Clock, &ack_bytes(*answer), out),
        Message::Serial(number) => write_known(KnownCode::Serial, &serial_bytes(number), out),
        Message::Trademark(body) => write_known(KnownCode::Trademark, body.bytes(), out),
        Message::Version { main, sub } => {
            write_known(KnownCode::Version, &[main.get(), sub.get()], out)
        }
        Message::Battery(body) => write_known(KnownCode::Battery, body.bytes(), out),
        Message::LongSerial(body) => write_known(KnownCode::LongSerial, body.bytes(), out),
        Message::Other { code, body } => write_whole(code.get().get(), body.bytes(), out),
    }
}

/// Writes what `encode` writes of [`Message::Field`], without building a message: copying one takes
/// longer than writing these five bytes.
pub fn encode_field(square: Square, piece: Piece, out: &mut [u8]) -> Result<usize, NoRoom>
    ensures written { WritesPrefix
        (encoding (field (square_number square) piece)) out.old out.new result }
    ensures encodes { Encodes
        (field (square_number square) piece) (encoding (field (square_number square) piece)) }
{
    if out.len() < 5 {
        return Err(NoRoom { need: 5 });
    }
    out[0] = 128 + KnownCode::Field.number();
    out[1] = 0;
    out[2] = 5;
    out[3] = square.index();
    out[4] = piece.code();
    Ok(5)
}

fn body_length(message: &Message<'_>) -> usize
    ensures value { result ≡ length (body_encoding (content message.now)) }
    ensures fits { result ≤ MAX_BODY }
{
    match message {
        Message::Dump(position) => position.pieces().len(),
        Message::Field { .. } | Message::Version { .. } => 2,
        Message::Times(_) | Message::Ack(_) => 7,
        Message::NoClock(absence) => absence.raw().len() + 1,
        Message::Serial(number) => serial_bytes(number).len(),
        Message::Trademark(body)
        | Message::Battery(body)
        | Message::LongSerial(body)
        | Message::Other { body, .. } => body.bytes().len(),
    }
}

fn write_known(code: KnownCode, body: &[u8], out: &mut [u8]) -> Result<usize, NoRoom>
    requires { length body.now ≤ MAX_BODY }
    ensures { WritesPrefix (message_bytes (known_number code) body.now) out.old out.new result }
{
    write_whole(code.number(), body, out)
}

fn write_whole(code: u8, body: &[u8], out: &mut [u8]) -> Result<usize, NoRoom>
    requires code { code < 128 }
    requires fits { length body.now ≤ MAX_BODY }
    ensures { WritesPrefix (message_bytes code body.now) out.old out.new result }
{
    let need = body.len() + 3;
    if out.len() < need {
        return Err(NoRoom { need });
    }
    out[0] = 128 + code;
    out[1] = (need / 128) as u8;
    out[2] = (need % 128) as u8;
    out[3..need].copy_from_slice(body);
    Ok(need)
}

/// The digits of a serial number, as bytes.
pub fn serial_bytes(serial: &[SevenBit; 5]) -> [u8; 5]
    ensures bytes { result ≡ map number serial.now }
    ensures len { length result ≡ 5 }
    ensures digits { length serial.now ≡ 5 }
    ensures seven_bit { AreSevenBit (map number serial.now) }
{
    let [a, b, c, d, e] = serial;
    [a.get(), b.get(), c.get(), d.get(), e.get()]
}

fn encode_times(times: Times) -> [u8; 7]
    ensures bytes { result ≡ times_bytes (times_seen times) }
    ensures in_range { AreTimes (times_seen times) }
{
    let [first_hours, first_minutes, first_seconds] = encode_time(times.first());
    let [second_hours, second_minutes, second_seconds] = encode_time(times.second());
    [
        first_hours,
        first_minutes,
        first_seconds,
        second_hours,
        second_minutes,
        second_seconds,
        times.status().code().get(),
    ]
}

fn encode_time(reading: Reading) -> [u8; 3]
    ensures bytes { result ≡ time_bytes (time_seen reading) }
    ensures in_range { IsTime (time_seen reading) }
{
    [
        reading.hours() + 16 * reading.flags(),
        pack(reading.minutes()),
        pack(reading.seconds()),
    ]
}

// Tens in the high four bits, and units in the low four.
fn pack(n: u8) -> u8
    requires { n < 60 }
    ensures { result ≡ packed_decimal n }
{
    16 * (n / 10) + n % 10
}

fn absence_bytes(absence: NoClock) -> [u8; 7]
    ensures bytes { result ≡ (absence_seen absence).raw ++ (absence_seen absence).status ∷ [] }
    ensures in_range { IsAbsence (absence_seen absence) }
{
    let [a, b, c, d, e, f] = absence.raw_bytes();
    [a, b, c, d, e, f, absence.status().code().get()]
}

fn ack_bytes(answer: ClockAck) -> [u8; 7]
    ensures bytes { result ≡ ack_encoding (answer_seen answer) }
    ensures in_range { IsAck (answer_seen answer) }
{
    let [a, b, c, d] = answer.ack;
    [
        form_mark(c, d),
        a & 0x7f,
        b & 0x7f,
        form_mark(a, b),
        c & 0x7f,
        d & 0x7f,
        answer.status.get(),
    ]
}

// The mark of an acknowledgement, with the top bits of two bytes as D4 and D5.
fn form_mark(first: u8, second: u8) -> u8
    ensures { result ≡ mark_with first second }
{
    ACK_MARK + (first >> 7) * 0x10 + (second >> 7) * 0x20
}
