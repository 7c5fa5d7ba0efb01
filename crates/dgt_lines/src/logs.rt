//! The lines of stored events.

ghost use Rattle.std.specs.Prelude.{◌≡◌, ◌+◌, ◌^◌, ◌<◌, ◌≤◌, ℕ, List, ◌++◌, length, IfOk};
ghost use Rattle.dgt_stored.specs.Stored.{IsFirst, Says, StoredContent, stored_bytes, stored_content};
ghost use Rattle.dgt_lines.specs.Lines.{line};
ghost use Rattle.dgt_lines.specs.Logs.{mark_text, stored_lines, stored_text};
ghost use Rattle.dgt_lines.specs.Printing.{Puts};

use crate::faults::RunFault;
use crate::gathering::{LINE_ROOM, Outgoing};
use crate::laws::writes_in_a_row;
use crate::lines::push_offset;
use crate::streams::Sink;
use crate::wording::push_reading;
use dgt_stored::{Mark, Stored, first, laws};
use dgt_values::{Piece, Square};

#[tactic(auto, unfolding(crate::specs::Logs::stored_text))]
fn push_stored<const ROOM: usize>(text: &mut Outgoing<ROOM>, stored: Stored)
    requires { length text.old + 20 ≤ ROOM }
    ensures text { text.new ≡ text.old ++ stored_text (stored_content stored) }
    ensures room { length text.new ≤ length text.old + 20 }
{
    match stored {
        Stored::Piece { square, piece, bit } => push_piece(text, square, piece, bit),
        Stored::Time(reading) => {
            text.push(b"time ");
            push_reading(text, reading);
        }
        Stored::Mark(mark) => text.push(mark_word(mark)),
        Stored::Unknown(byte) => {
            text.push(b"unknown ");
            text.push_hex(&[byte]);
        }
    }
}

#[tactic(auto, unfolding(crate::specs::Logs::stored_text))]
fn push_piece<const ROOM: usize>(text: &mut Outgoing<ROOM>, square: Square, piece: Piece, bit: bool)
    requires { length text.old + 20 ≤ ROOM }
    ensures text { text.new ≡ text.old
        ++ stored_text (stored_content (Stored.Piece square piece bit)) }
    ensures room { length text.new ≤ length text.old + 20 }
{
    let [file, rank] = square.name();
    text.push(b"piece ");
    text.push(&[file, rank, b' ', piece.letter() as u8]);
    if bit {
        text.push(b" +");
    }
}

fn mark_word(mark: Mark) -> &'static [u8]
    ensures word { result.now ≡ mark_text mark }
    ensures short { length result.now ≤ 20 }
{
    match mark {
        Mark::Nothing => b"nothing",
        Mark::PowerUp => b"powerup",
        Mark::End => b"end",
        Mark::FourRows => b"fourrows",
        Mark::EmptyBoard => b"emptyboard",
        Mark::Downloaded => b"downloaded",
        Mark::Begin => b"begin",
        Mark::TurnedBegin => b"turnedbegin",
        Mark::Tag => b"tag",
        Mark::Watchdog => b"watchdog",
        Mark::Erased => b"erased",
    }
}

// The line of a stored event, with the offset of its last byte.
fn put_line<W: Sink, const ROOM: usize>(
    outgoing: &mut Outgoing<ROOM>,
    writer: &mut W,
    offset: u64,
    stored: Stored,
) -> Result<(), RunFault>
    requires { LINE_ROOM ≤ ROOM }
    ensures { Puts W.Sink (outgoing.old, outgoing.new) writer.old writer.new result
        (line offset (stored_text (stored_content stored))) }
{
    outgoing.make_room(writer, LINE_ROOM)?;
    push_offset(outgoing, offset);
    push_stored(outgoing, stored);
    outgoing.push(b"\n");
    Ok(())
}

// Gathers the line of the first stored event in these bytes, which follow this number of bytes.
// Returns the number of its bytes.
fn put_first<W: Sink, const ROOM: usize>(
    outgoing: &mut Outgoing<ROOM>,
    writer: &mut W,
    before: u64,
    bytes: &[u8],
) -> Result<usize, RunFault>
    requires room { LINE_ROOM ≤ ROOM }
    requires some { 0 < length bytes.now }
    requires fits { before + length bytes.now < 2 ^ 64 }
    ensures within { IfOk result (λ used. (0 < used) × (used ≤ length bytes.now)) }
    ensures puts { (stored : StoredContent) (later : List ℕ) → IsFirst bytes.now stored later →
        IfOk result (λ used. used ≡ length (stored_bytes stored))
        × Puts W.Sink (outgoing.old, outgoing.new) writer.old writer.new result
        (line (before + length (stored_bytes stored)) (stored_text stored)) }
{
    laws::one_is_first();
    let (stored, used) = first(bytes).unwrap();
    put_line(outgoing, writer, before + used as u64, stored)?;
    Ok(used)
}

/// Gathers the lines of the stored events in a body that follows this number of bytes.
pub(crate) fn put_body<W: Sink, const ROOM: usize>(
    outgoing: &mut Outgoing<ROOM>,
    writer: &mut W,
    before: u64,
    body: &[u8],
) -> Result<(), RunFault>
    requires room { LINE_ROOM ≤ ROOM }
    requires fits { before + length body.now < 2 ^ 64 }
    ensures { (things : List StoredContent) → Says body.now things →
        Puts W.Sink (outgoing.old, outgoing.new) writer.old writer.new result
        (stored_lines before things) }
{
    let mut at = 0;
    while at < body.len() {
        at += put_first(outgoing, writer, before + at as u64, &body[at..])?;
    }
    Ok(())
}
