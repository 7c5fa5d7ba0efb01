use dgt_stored::{Stored, first};
use dgt_values::Piece;

/// Whether the first item reports that a piece was lifted.
pub fn begins_with_a_lift(body: &[u8]) -> bool {
    match first(body) {
        Some((Stored::Piece { piece, .. }, _)) => piece == Piece::Empty,
        _ => false,
    }
}
