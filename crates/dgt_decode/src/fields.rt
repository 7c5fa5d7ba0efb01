//! Reading field updates, the most common messages.

ghost use Rattle.std.specs.Prelude.{◌≡◌, ◌≢◌, ℕ, MatchOption};
ghost use Rattle.dgt_values.specs.Board.{square_number};
ghost use Rattle.dgt_message.specs.Content.Content.{field};
ghost use Rattle.dgt_decode.specs.Grammar.{Message, message_event};
ghost use Rattle.dgt_decode.specs.Feeding.{IsWholeMessage};

use crate::header::{FIELD, begins_with_field};
use dgt_values::{Piece, Square};

// The first byte of a field update.
const FIELD_BYTE: u8 = 0x8e;

/// The square and the piece of a field update, if these bytes are one whole field update.
///
/// Returns `None` for any other bytes, and for a square above 63 or a piece code above 15. A caller
/// that reads many field updates calls this before it builds an [`Event`](crate::Event): an event
/// is as large as a whole position, and copying it takes longer than reading a field update.
#[inline(always)]
pub fn field_update(bytes: &[u8]) -> Option<(Square, Piece)>
    ensures { MatchOption result
        ((square : ℕ) (piece : Piece) → IsWholeMessage bytes.now →
        message_event bytes.now ≢ Message (field square piece))
        (λ reported. IsWholeMessage bytes.now
        × (message_event bytes.now ≡ Message (field (square_number reported.0) reported.1))) }
{
    dgt_message::laws::reading_is_exact();
    if bytes.len() != FIELD || bytes[0] != FIELD_BYTE || !begins_with_field(bytes) {
        return None;
    }
    match (Square::from_index(bytes[3]), Piece::from_code(bytes[4])) {
        (Ok(square), Ok(piece)) => Some((square, piece)),
        _ => None,
    }
}
