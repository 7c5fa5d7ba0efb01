//! The lines of events.

ghost use Rattle.std.specs.Prelude.{◌≡◌, ◌≢◌, ◌+◌, ◌*◌, ◌/◌, ◌%◌, ◌<◌, ◌≤◌, ℕ, List, ◌++◌, [], ◌∷◌, false, length, IsTrue, OnOk, OnErr};
ghost use Rattle.hex.specs.Hex.{encode_lower};
ghost use Rattle.dgt_values.specs.Board.{square_number};
ghost use Rattle.dgt_message.specs.Content.Content.{field};
ghost use Rattle.dgt_decode.specs.Grammar.{Message, message_event};
ghost use Rattle.dgt_decode.specs.Feeding.{IsWholeMessage, event_content, event_found_in};
ghost use Rattle.dgt_lines.specs.Writing.{Gathers, Writes};
ghost use Rattle.dgt_lines.specs.Lines.{bytes_text, event_line, event_text, line, offset_text, padded_decimal, unfinished_line, unfinished_text};
ghost use Rattle.dgt_lines.specs.Marks.{Waits};

use crate::faults::RunFault;
use crate::gathering::{LINE_ROOM, Outgoing, flush};
use crate::streams::Sink;
use crate::wording::{push_event, push_fault, push_field};
use dgt_decode::{Event, Found, Framer};
use dgt_values::{Piece, Square};

// The number of carried bytes whose digits are added at once.
const PART: usize = 64;

// Room for a line that is written by itself. A line that carries more bytes takes more writes.
const ROOM: usize = 1024;

/// Adds an offset, and a space.
#[inline(always)]
pub(crate) fn push_offset<const ROOM: usize>(text: &mut Outgoing<ROOM>, offset: u64)
    requires { length text.old + LINE_ROOM ≤ ROOM }
    ensures text { text.new ≡ text.old ++ (offset_text offset ++ 32 ∷ []) }
    ensures room { length text.new + 113 ≤ ROOM }
{
    if offset < 100_000_000 {
        text.push(&eight_digits(offset as u32));
    } else {
        text.push_decimal(offset, 8);
    }
    text.push(b" ");
}

// The digits of the numbers below 100, each with the tens in its low byte.
const PAIRS: [u16; 100] = [
    0x3030, 0x3130, 0x3230, 0x3330, 0x3430, 0x3530, 0x3630, 0x3730, 0x3830, 0x3930, 0x3031, 0x3131,
    0x3231, 0x3331, 0x3431, 0x3531, 0x3631, 0x3731, 0x3831, 0x3931, 0x3032, 0x3132, 0x3232, 0x3332,
    0x3432, 0x3532, 0x3632, 0x3732, 0x3832, 0x3932, 0x3033, 0x3133, 0x3233, 0x3333, 0x3433, 0x3533,
    0x3633, 0x3733, 0x3833, 0x3933, 0x3034, 0x3134, 0x3234, 0x3334, 0x3434, 0x3534, 0x3634, 0x3734,
    0x3834, 0x3934, 0x3035, 0x3135, 0x3235, 0x3335, 0x3435, 0x3535, 0x3635, 0x3735, 0x3835, 0x3935,
    0x3036, 0x3136, 0x3236, 0x3336, 0x3436, 0x3536, 0x3636, 0x3736, 0x3836, 0x3936, 0x3037, 0x3137,
    0x3237, 0x3337, 0x3437, 0x3537, 0x3637, 0x3737, 0x3837, 0x3937, 0x3038, 0x3138, 0x3238, 0x3338,
    0x3438, 0x3538, 0x3638, 0x3738, 0x3838, 0x3938, 0x3039, 0x3139, 0x3239, 0x3339, 0x3439, 0x3539,
    0x3639, 0x3739, 0x3839, 0x3939,
];

// Eight digits, two at a time from the table, in one word.
fn eight_digits(number: u32) -> [u8; 8]
    requires { number < 100000000 }
    ensures { result ≡ padded_decimal 8 number }
{
    let (high, low) = (number / 10_000, number % 10_000);
    let first = two_digits(high / 100) + 0x1_0000 * two_digits(high % 100);
    let last = two_digits(low / 100) + 0x1_0000 * two_digits(low % 100);
    (first + 0x1_0000_0000 * last).to_le_bytes()
}

// Two digits in a word, the tens in the low byte.
fn two_digits(number: u32) -> u64
    requires { number < 100 }
    ensures { result ≡ 48 + number / 10 + 256 * (48 + number % 10) }
{
    u64::from(PAIRS[number as usize])
}

fn put_bytes<W: Sink, const ROOM: usize>(
    outgoing: &mut Outgoing<ROOM>,
    writer: &mut W,
    bytes: &[u8],
) -> Result<(), RunFault>
    ensures output { Gathers W.Sink (outgoing.old, outgoing.new) writer.old writer.new
        result (bytes_text bytes.now) }
    ensures dropped { OnErr result (outgoing.new ≡ []) }
    ensures no_flush { W.flushed writer.old ≡ false → W.flushed writer.new ≡ false }
{
    if bytes.is_empty() {
        return outgoing.add(writer, b"-");
    }
    put_digits(outgoing, writer, bytes)
}

fn put_digits<W: Sink, const ROOM: usize>(
    outgoing: &mut Outgoing<ROOM>,
    writer: &mut W,
    bytes: &[u8],
) -> Result<(), RunFault>
    ensures output { Gathers W.Sink (outgoing.old, outgoing.new) writer.old writer.new
        result (encode_lower bytes.now) }
    ensures dropped { OnErr result (outgoing.new ≡ []) }
    ensures no_flush { W.flushed writer.old ≡ false → W.flushed writer.new ≡ false }
{
    let mut at = 0;
    while at < bytes.len() {
        let end = bytes.len().min(at + PART);
        put_part(outgoing, writer, &bytes[at..end])?;
        at = end;
    }
    Ok(())
}

// Two digits for each of a few bytes, added at once.
fn put_part<W: Sink, const ROOM: usize>(
    outgoing: &mut Outgoing<ROOM>,
    writer: &mut W,
    part: &[u8],
) -> Result<(), RunFault>
    requires { length part.now ≤ PART }
    ensures output { Gathers W.Sink (outgoing.old, outgoing.new) writer.old writer.new
        result (encode_lower part.now) }
    ensures dropped { OnErr result (outgoing.new ≡ []) }
    ensures no_flush { W.flushed writer.old ≡ false → W.flushed writer.new ≡ false }
{
    let mut digits = [0; 2 * PART];
    let text = &mut digits[..2 * part.len()];
    hex::encode_to_slice(part, text).unwrap();
    outgoing.add(writer, text)
}

/// Gathers the line of an event. The offset is the number of bytes up to and including its last
/// one.
pub(crate) fn put_event<W: Sink, const ROOM: usize>(
    outgoing: &mut Outgoing<ROOM>,
    writer: &mut W,
    offset: u64,
    event: &Event<'_>,
) -> Result<(), RunFault>
    requires { LINE_ROOM ≤ ROOM }
    ensures output { Gathers W.Sink (outgoing.old, outgoing.new) writer.old writer.new
        result (event_line offset (event_content event.now)) }
    ensures dropped { OnErr result (outgoing.new ≡ []) }
    ensures no_flush { W.flushed writer.old ≡ false → W.flushed writer.new ≡ false }
    ensures waits { OnOk result (Waits outgoing.new (W.flushed writer.new)) }
{
    put_text(outgoing, writer, offset, event)?;
    outgoing.add(writer, b"\n")
}

/// Gathers that line without its line feed.
pub(crate) fn put_text<W: Sink, const ROOM: usize>(
    outgoing: &mut Outgoing<ROOM>,
    writer: &mut W,
    offset: u64,
    event: &Event<'_>,
) -> Result<(), RunFault>
    requires { LINE_ROOM ≤ ROOM }
    ensures output { Gathers W.Sink (outgoing.old, outgoing.new) writer.old writer.new
        result (offset_text offset ++ 32 ∷ event_text (event_content event.now)) }
    ensures dropped { OnErr result (outgoing.new ≡ []) }
    ensures no_flush { W.flushed writer.old ≡ false → W.flushed writer.new ≡ false }
{
    outgoing.make_room(writer, LINE_ROOM)?;
    push_offset(outgoing, offset);
    match push_event(outgoing, event) {
        None => Ok(()),
        Some(body) => put_bytes(outgoing, writer, body.bytes()),
    }
}

/// Gathers the line of a field update that ends at this offset.
#[inline(always)]
pub(crate) fn put_field<W: Sink, const ROOM: usize>(
    outgoing: &mut Outgoing<ROOM>,
    writer: &mut W,
    offset: u64,
    square: Square,
    piece: Piece,
) -> Result<(), RunFault>
    requires { LINE_ROOM ≤ ROOM }
    ensures output { Gathers W.Sink (outgoing.old, outgoing.new) writer.old writer.new
        result (event_line offset (Message (field (square_number square) piece))) }
    ensures dropped { OnErr result (outgoing.new ≡ []) }
    ensures no_flush { W.flushed writer.old ≡ false → W.flushed writer.new ≡ false }
    ensures waits { OnOk result (Waits outgoing.new (W.flushed writer.new)) }
{
    outgoing.make_room(writer, LINE_ROOM)?;
    push_offset(outgoing, offset);
    push_field(outgoing, square, piece);
    outgoing.push(b"\n");
    Ok(())
}

/// Gathers the line of what a framer found. `found` is borrowed, since copying it costs more than
/// the rest.
pub(crate) fn put_found<W: Sink, const ROOM: usize>(
    outgoing: &mut Outgoing<ROOM>,
    writer: &mut W,
    offset: u64,
    framer: &Framer,
    found: &Found,
) -> Result<(), RunFault>
    requires room { LINE_ROOM ≤ ROOM }
    requires whole { found.now ≡ Found.Message → IsWholeMessage framer.now }
    ensures output { Gathers W.Sink (outgoing.old, outgoing.new) writer.old writer.new
        result (event_line offset (event_found_in framer.now found.now)) }
    ensures dropped { OnErr result (outgoing.new ≡ []) }
    ensures no_flush { W.flushed writer.old ≡ false → W.flushed writer.new ≡ false }
    ensures waits { OnOk result (Waits outgoing.new (W.flushed writer.new)) }
{
    match found {
        Found::Message => put_message_event(outgoing, writer, offset, framer),
        fault => put_fault(outgoing, writer, offset, *fault),
    }
}

// The line of a fault, formed without an event.
fn put_fault<W: Sink, const ROOM: usize>(
    outgoing: &mut Outgoing<ROOM>,
    writer: &mut W,
    offset: u64,
    fault: Found,
) -> Result<(), RunFault>
    requires room { LINE_ROOM ≤ ROOM }
    requires fault { fault ≢ Found.Message }
    ensures output { (bytes : List ℕ) → Gathers W.Sink (outgoing.old, outgoing.new) writer.old
        writer.new result (event_line offset (event_found_in bytes fault)) }
    ensures dropped { OnErr result (outgoing.new ≡ []) }
    ensures no_flush { W.flushed writer.old ≡ false → W.flushed writer.new ≡ false }
    ensures waits { OnOk result (Waits outgoing.new (W.flushed writer.new)) }
{
    outgoing.make_room(writer, LINE_ROOM)?;
    push_offset(outgoing, offset);
    push_fault(outgoing, fault);
    outgoing.push(b"\n");
    Ok(())
}

// The line of a whole message by its event. Not inlined, since the memory of an event would then be
// cleared for each field too.
#[inline(never)]
fn put_message_event<W: Sink, const ROOM: usize>(
    outgoing: &mut Outgoing<ROOM>,
    writer: &mut W,
    offset: u64,
    framer: &Framer,
) -> Result<(), RunFault>
    requires room { LINE_ROOM ≤ ROOM }
    requires whole { IsWholeMessage framer.now }
    ensures output { Gathers W.Sink (outgoing.old, outgoing.new) writer.old writer.new
        result (event_line offset (message_event framer.now)) }
    ensures dropped { OnErr result (outgoing.new ≡ []) }
    ensures no_flush { W.flushed writer.old ≡ false → W.flushed writer.new ≡ false }
    ensures waits { OnOk result (Waits outgoing.new (W.flushed writer.new)) }
{
    let event = framer.event(Found::Message).unwrap();
    put_event(outgoing, writer, offset, &event)
}

/// Writes the line of an unfinished message or command, of which this number of bytes arrived,
/// without a flush.
pub fn write_unfinished<W: Sink>(writer: &mut W, offset: u64, have: usize) -> Result<(), RunFault>
    ensures output { Writes W.Sink writer.old writer.new result
        (line offset (unfinished_text have)) }
    ensures no_flush { W.flushed writer.old ≡ false → W.flushed writer.new ≡ false }
{
    let mut text = Outgoing::<LINE_ROOM>::new();
    push_offset(&mut text, offset);
    text.push(b"unfinished ");
    text.push_decimal(have as u64, 1);
    text.push(b"\n");
    text.write_out(writer)
}

/// Writes and flushes a last line after `offset` bytes, if `have` bytes of an unfinished message or
/// command arrived.
pub(crate) fn write_end<W: Sink>(writer: &mut W, offset: u64, have: usize) -> Result<(), RunFault>
    ensures output { (held : List ℕ) → have ≡ length held →
        Writes W.Sink writer.old writer.new result (unfinished_line offset held) }
    ensures flushed { OnOk result (IsTrue (W.flushed writer.old) → IsTrue (W.flushed writer.new)) }
{
    if have == 0 {
        return Ok(());
    }
    write_unfinished(writer, offset, have)?;
    flush(writer)
}

/// Writes the line of an event, without a flush.
///
/// The line `00000005 field e4 P`, for example, consists of the offset, a space, the text of the
/// event and a line feed. The offset counts the bytes up to and including the last one of the
/// event. It is decimal, with leading zeros to at least eight digits.
///
/// Returns `WriteFailed` if the writer refuses. The writer then took a prefix of the line, and gets
/// nothing more.
pub fn write_event<W: Sink>(writer: &mut W, offset: u64, event: &Event<'_>) -> Result<(), RunFault>
    ensures output { Writes W.Sink writer.old writer.new result
        (event_line offset (event_content event.now)) }

    // nothing is flushed: the line waits for a flush, and what waited before still does
    ensures unflushed { OnOk result (W.flushed writer.new ≡ false) }
    ensures no_flush { W.flushed writer.old ≡ false → W.flushed writer.new ≡ false }
{
    let mut outgoing = Outgoing::<ROOM>::new();
    put_event(&mut outgoing, writer, offset, event)?;
    outgoing.write_out(writer)
}
