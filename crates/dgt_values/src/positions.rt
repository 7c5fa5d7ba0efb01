//! Positions: the pieces on the 64 squares.

ghost use Rattle.std.specs.Prelude.{◌≡◌, ◌↔◌, ◌<◌, ◌≤◌, ℕ, length, map, replicate, IsTrue, MatchResult};
ghost use Rattle.std.specs.Prelude.{slice_get, slice_index, slice_set};

use crate::pieces::Piece;
use crate::squares::Square;
use std::simd::prelude::*;

/// The pieces of the 64 squares.
#[derive(Clone, Copy, Debug, PartialEq, Eq)]
pub struct Position {
    pieces: [Piece; 64],
    ghost all: { length pieces ≡ 64 },
}

const BLACK_OFFICERS: [Piece; 8] = [
    Piece::BlackRook,
    Piece::BlackKnight,
    Piece::BlackBishop,
    Piece::BlackQueen,
    Piece::BlackKing,
    Piece::BlackBishop,
    Piece::BlackKnight,
    Piece::BlackRook,
];

const WHITE_OFFICERS: [Piece; 8] = [
    Piece::WhiteRook,
    Piece::WhiteKnight,
    Piece::WhiteBishop,
    Piece::WhiteQueen,
    Piece::WhiteKing,
    Piece::WhiteBishop,
    Piece::WhiteKnight,
    Piece::WhiteRook,
];

impl Position {
    ghost use Rattle.dgt_values.specs.Board.{piece_code, pieces_of, square_number, start_pieces};
    ghost use Rattle.dgt_values.specs.Board.{DifferingSquares};

    /// A board without pieces.
    pub fn empty() -> Self
        ensures { pieces_of result ≡ replicate 64 Piece.Empty }
    {
        Position {
            pieces: [Piece::Empty; 64],
        }
    }

    /// The position in which a game begins.
    pub fn start() -> Self
        ensures { pieces_of result ≡ start_pieces }
    {
        let mut pieces = [Piece::Empty; 64];
        pieces[..8].copy_from_slice(&BLACK_OFFICERS);
        pieces[8..16].fill(Piece::BlackPawn);
        pieces[48..56].fill(Piece::WhitePawn);
        pieces[56..].copy_from_slice(&WHITE_OFFICERS);
        Position { pieces }
    }

    pub(crate) fn from_pieces(pieces: [Piece; 64]) -> Self
        ensures { pieces_of result ≡ pieces }
    {
        Position { pieces }
    }

    /// The position of these piece codes, from a8 to h1. `Err` is the first square with a code
    /// above 15.
    pub fn from_codes(codes: &[u8; 64]) -> Result<Self, Square>
        ensures { MatchResult result
            (λ position. map piece_code (pieces_of position) ≡ codes.now)
            (λ square. (16 ≤ slice_index codes.now (square_number square))
            × ((n : ℕ) → n < square_number square → slice_index codes.now n < 16)) }
    {
        let mut pieces = [Piece::Empty; 64];
        for (at, code) in codes.iter().enumerate() {
            let Ok(piece) = Piece::from_code(*code) else {
                return Err(Square::from_small(at as u8));
            };
            pieces[at] = piece;
        }
        Ok(Position { pieces })
    }

    /// The pieces of all squares, from a8 to h1.
    pub fn pieces(&self) -> &[Piece; 64]
        ensures pieces { result.now ≡ pieces_of self.now }
        ensures len { length (pieces_of self.now) ≡ 64 }
    {
        &self.pieces
    }

    /// The piece on the square, or `Empty`.
    pub fn get(&self, square: Square) -> Piece
        ensures piece { slice_get (pieces_of self.now) (square_number square) ≡ Some result }
        ensures len { length (pieces_of self.now) ≡ 64 }
    {
        self.pieces[square.index() as usize]
    }

    /// Puts the piece, which may be `Empty`, on the square. No other square changes.
    pub fn set(&mut self, square: Square, piece: Piece)
        ensures set { pieces_of self.new
            ≡ slice_set (pieces_of self.old) (square_number square) piece }
        ensures len { length (pieces_of self.new) ≡ 64 }
    {
        self.pieces[square.index() as usize] = piece;
    }

    /// The squares on which two positions differ: bit n is set if square n differs.
    pub fn differ(&self, other: &Position) -> u64
        ensures { DifferingSquares (pieces_of self.now) (pieces_of other.now) result }
    {
        let own = u8x64::from_array(self.codes());
        let others = u8x64::from_array(other.codes());
        own.simd_ne(others).to_bitmask()
    }

    /// The codes of the pieces from a8 to h1, as a dump carries them.
    pub fn codes(&self) -> [u8; 64]
        ensures codes { result ≡ map piece_code (pieces_of self.now) }
        ensures len { length (pieces_of self.now) ≡ 64 }
    {
        // In memory these bytes are the codes already, and the compiler emits no loop.
        let mut codes = [0; 64];
        for square in 0..64 {
            codes[square] = self.pieces[square].code();
        }
        codes
    }
}

pub(crate) fn is_same(a: Piece, b: Piece) -> bool
    ensures { IsTrue result ↔ (a ≡ b) }
{
    a == b
}
