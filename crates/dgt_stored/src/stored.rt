//! Stored items, and how they are read.

ghost use Rattle.std.specs.Prelude.{◌≡◌, ◌≢◌, ◌<◌, ◌≤◌, ℕ, List, [], drop, length, IfSome, MatchOption};
ghost use Rattle.dgt_message.specs.Clock.{Time};
ghost use Rattle.dgt_message.specs.Content.{time_seen};
ghost use Rattle.dgt_message.specs.Encoding.{packed_decimal};
ghost use Rattle.dgt_stored.specs.Stored.{Begins, IsFirst, StoredContent, mark_byte, stored_bytes, stored_content};

use dgt_message::Reading;
use dgt_values::{Piece, Square};

/// An item of a single byte.
#[derive(Clone, Copy, Debug, PartialEq, Eq)]
pub enum Mark {
    /// Nothing is stored here.
    Nothing = 0x00,
    /// The board was switched on.
    PowerUp = 0x6a,
    /// The end of what is stored.
    End = 0x6b,
    /// The pieces are on four ranks, as before a game.
    FourRows = 0x6c,
    /// The board is empty.
    EmptyBoard = 0x6d,
    /// Everything before this was sent to a host.
    Downloaded = 0x6e,
    /// The pieces are in the initial position of a game.
    Begin = 0x6f,
    /// The same, with the board turned.
    TurnedBegin = 0x7a,
    /// A tag.
    Tag = 0x7b,
    /// The board restarted by itself.
    Watchdog = 0x7c,
    /// Nothing was ever stored here.
    Erased = 0x7f,
}

/// An item.
#[derive(Clone, Copy, Debug, PartialEq, Eq)]
pub enum Stored {
    /// This piece is now on this square. The bit D4 of its byte is carried unread.
    Piece {
        square: Square,
        piece: Piece,
        bit: bool,
    },
    /// The time of one player. Its flags are 6 for one player and 7 for the other.
    Time(Reading),
    Mark(Mark),
    /// A byte of no other kind, or one that begins an item that is cut off.
    Unknown(u8),
}

impl Mark {
    // The mark with this byte, if there is one.
    fn with_byte(byte: u8) -> Option<Self>
        ensures { MatchOption result ((mark : Mark) → mark_byte mark ≢ byte)
            (λ mark. mark_byte mark ≡ byte) }
    {
        Some(match byte {
            0x00 => Mark::Nothing,
            0x6a => Mark::PowerUp,
            0x6b => Mark::End,
            0x6c => Mark::FourRows,
            0x6d => Mark::EmptyBoard,
            0x6e => Mark::Downloaded,
            0x6f => Mark::Begin,
            0x7a => Mark::TurnedBegin,
            0x7b => Mark::Tag,
            0x7c => Mark::Watchdog,
            0x7f => Mark::Erased,
            _ => return None,
        })
    }
}

/// The first item of the bytes, and how many bytes it takes. `None` if there are no bytes.
pub fn first(bytes: &[u8]) -> Option<(Stored, usize)>
    ensures first { MatchOption result (bytes.now ≡ [])
        (λ read. IsFirst bytes.now (stored_content read.0) (drop read.1 bytes.now)) }
    ensures used { IfSome result (λ read. read.1 ≡ length (stored_bytes (stored_content read.0))) }
    ensures within { IfSome result (λ read. (0 < read.1) × (read.1 ≤ length bytes.now)) }
{
    if let Some((square, piece, bit)) = first_piece(bytes) {
        return Some((Stored::Piece { square, piece, bit }, 2));
    }
    if let Some(reading) = first_time(bytes) {
        return Some((Stored::Time(reading), 3));
    }
    let byte = *bytes.first()?;
    match Mark::with_byte(byte) {
        Some(mark) => Some((Stored::Mark(mark), 1)),
        None => Some((Stored::Unknown(byte), 1)),
    }
}

fn first_piece(bytes: &[u8]) -> Option<(Square, Piece, bool)>
    ensures { MatchOption result
        ((square : ℕ) (piece : Piece) (bit : ℕ) (later : List ℕ) →
        ¬ (Begins bytes.now (StoredContent.piece square piece bit) later))
        (λ read. Begins bytes.now
        (stored_content (Stored.Piece read.0 read.1 read.2)) (drop 2 bytes.now)) }
{
    let [code, square, ..] = bytes else {
        return None;
    };
    if *code < 0x40 || *code > 0x5f || *square > 63 {
        return None;
    }
    match Piece::from_code(*code % 16) {
        Ok(piece) => Some((Square::from_small(*square), piece, *code >= 0x50)),
        Err(_) => unreachable!(),
    }
}

fn first_time(bytes: &[u8]) -> Option<Reading>
    ensures { MatchOption result
        ((shown : Time) (later : List ℕ) →
        ¬ (Begins bytes.now (StoredContent.time shown) later))
        (λ reading. Begins bytes.now
        (StoredContent.time (time_seen reading)) (drop 3 bytes.now)) }
{
    let [hours, minutes, seconds, ..] = bytes else {
        return None;
    };
    if *hours < 0x60 {
        return None;
    }
    Reading::new(
        *hours % 16,
        unpack(*minutes)?,
        unpack(*seconds)?,
        *hours / 16,
    )
    .ok()
}

// The number of two packed digits, if it is below 60.
fn unpack(byte: u8) -> Option<u8>
    ensures { MatchOption result
        ((n : ℕ) → n < 60 → byte ≢ packed_decimal n)
        (λ n. (n < 60) × (byte ≡ packed_decimal n)) }
{
    let tens = byte / 16;
    let units = byte % 16;
    if tens > 5 || units > 9 {
        return None;
    }
    Some(10 * tens + units)
}
