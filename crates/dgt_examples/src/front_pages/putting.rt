use dgt_board::{Board, Polled};
use dgt_values::{Piece, Square};

/// Puts a piece on a square, and writes the next message, such as the one that reports it.
/// Returns how many bytes to send.
pub fn put(board: &mut Board, square: Square, piece: Piece, out: &mut [u8]) -> usize {
    board.change(square, piece);
    match board.poll(out) {
        Polled::Wrote(count) => count,
        _ => 0,
    }
}
