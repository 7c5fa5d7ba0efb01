use dgt_values::{Piece, Position, Square};

/// The position after the piece on one square has moved to another.
pub fn moved(mut position: Position, from: Square, to: Square) -> Position {
    let piece = position.get(from);
    position.set(from, Piece::Empty);
    position.set(to, piece);
    position
}
