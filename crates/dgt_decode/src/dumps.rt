//! Reading dumps, the messages with the longest events.

ghost use Rattle.std.specs.Prelude.{◌≡◌, ◌≢◌, List, MatchOption};
ghost use Rattle.dgt_values.specs.Board.{pieces_of};
ghost use Rattle.dgt_values.specs.declared.pieces.Piece.{Piece};
ghost use Rattle.dgt_message.specs.Content.Content.{dump};
ghost use Rattle.dgt_decode.specs.Grammar.{Message, message_event};
ghost use Rattle.dgt_decode.specs.Feeding.{IsWholeMessage};

use crate::header::HEADER;
use dgt_values::Position;

// The first byte of a dump.
const DUMP_BYTE: u8 = 0x86;

/// The position of a dump, if these bytes are one whole dump.
///
/// Returns `None` for any other message, and for a dump with a piece code above 15.
#[inline(always)]
pub fn dump_position(bytes: &[u8]) -> Option<Position>
    requires { IsWholeMessage bytes.now }
    ensures { MatchOption result
        ((pieces : List Piece) → message_event bytes.now ≢ Message (dump pieces))
        (λ position. message_event bytes.now ≡ Message (dump (pieces_of position))) }
{
    dgt_message::laws::reading_is_exact();
    if bytes[0] != DUMP_BYTE {
        return None;
    }
    let Ok(codes) = <&[u8; 64]>::try_from(&bytes[HEADER..]) else {
        return None;
    };
    match Position::from_codes(codes) {
        Ok(position) => Some(position),
        Err(_) => None,
    }
}
