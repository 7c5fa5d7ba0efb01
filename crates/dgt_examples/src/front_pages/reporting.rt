use dgt_message::{Message, encode};
use dgt_values::{NoRoom, Piece, Square};

/// Writes the five bytes that report a square, and returns their number.
pub fn report(square: Square, piece: Piece, out: &mut [u8]) -> Result<usize, NoRoom> {
    encode(&Message::Field { square, piece }, out)
}
