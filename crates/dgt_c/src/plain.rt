//! C calls for the names of squares, the letters of pieces, and segments.

ghost use Rattle.std.specs.Prelude.{◌≡◌, ◌≢◌, ◌≤◌, ◌<◌, ◌∷◌, ◌++◌, [], ℕ, false, IsTrue};
ghost use Rattle.dgt_values.specs.declared.pieces.Piece.{Piece};
ghost use Rattle.dgt_values.specs.Board.{piece_code, piece_letter, square_name};
ghost use Rattle.dgt_values.specs.Segment.{IsShownBy};

use crate::header::NONE;
use dgt_values::{Piece, Square, segment};

/// The letter of a piece by its code, or 0.
#[unsafe(no_mangle)]
pub extern "C" fn dgt_piece_letter(piece: u8) -> u8
    ensures letter { (put : Piece) → piece_code put ≡ piece → result ≡ piece_letter put }
    ensures none { 16 ≤ piece → result ≡ 0 }
{
    dgt_values::laws::one_piece_a_code();
    match Piece::from_code(piece) {
        Ok(piece) => piece.letter() as u8,
        Err(_) => 0,
    }
}

/// The code of a piece by its letter, or 255.
#[unsafe(no_mangle)]
pub extern "C" fn dgt_piece_code(letter: u8) -> u8
    ensures code { result ≢ NONE →
        (put : Piece) × (piece_letter put ≡ letter) × (result ≡ piece_code put) }
    ensures none { result ≡ NONE → (put : Piece) → piece_letter put ≢ letter }
{
    match Piece::from_letter(char::from(letter)) {
        Ok(piece) => piece.code(),
        Err(_) => NONE,
    }
}

/// Writes the name of a square and a zero byte. Returns false if there is no such square; then the
/// slice is unchanged.
#[unsafe(no_mangle)]
pub extern "C" fn dgt_square_name(square: u8, name: &mut [u8; 3]) -> bool
    ensures named { square < 64 → IsTrue result × (name.new ≡ square_name square ++ 0 ∷ []) }
    ensures none { 64 ≤ square → (result ≡ false) × (name.new ≡ name.old) }
{
    let Ok(square) = Square::from_index(square) else {
        return false;
    };
    let [file, rank] = square.name();
    *name = [file, rank, 0];
    true
}

/// The number of the square with this file and this rank, or 255.
#[unsafe(no_mangle)]
pub extern "C" fn dgt_square_number(file: u8, rank: u8) -> u8
    ensures square { result ≢ NONE →
        (result < 64) × (square_name result ≡ file ∷ rank ∷ []) }
    ensures none { result ≡ NONE →
        (square : ℕ) → square < 64 → square_name square ≢ file ∷ rank ∷ [] }
{
    match (file, rank) {
        (b'a'..=b'h', b'1'..=b'8') => 8 * (b'8' - rank) + (file - b'a'),
        _ => NONE,
    }
}

/// The segments of a digit, a space or a hyphen, or 255.
#[unsafe(no_mangle)]
pub extern "C" fn dgt_segment(character: u8) -> u8
    ensures shown { result ≢ NONE → IsShownBy character result }
    ensures none { result ≡ NONE → (byte : ℕ) → ¬ (IsShownBy character byte) }
{
    match segment(char::from(character)) {
        Ok(byte) => byte,
        Err(_) => NONE,
    }
}
