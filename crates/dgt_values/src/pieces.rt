//! The pieces that a square may hold.

ghost use Rattle.std.specs.Prelude.{◌≡◌, ◌≢◌, ◌<◌, ◌≤◌, MatchResult};
ghost use Rattle.dgt_values.specs.Board.{piece_code, piece_letter};

use crate::refusals::NoPiece;

/// What a square holds: nothing, one of the twelve chess pieces, or one of three extra pieces, to
/// which this project gives no meaning.
#[derive(Clone, Copy, Debug, PartialEq, Eq)]
pub enum Piece {
    Empty,
    WhitePawn,
    WhiteRook,
    WhiteKnight,
    WhiteBishop,
    WhiteKing,
    WhiteQueen,
    BlackPawn,
    BlackRook,
    BlackKnight,
    BlackBishop,
    BlackKing,
    BlackQueen,
    FirstExtra,
    SecondExtra,
    ThirdExtra,
}

impl Piece {
    /// The piece of a code from 0 to 15, as a message carries it. Returns `NoPiece` for a greater
    /// code.
    pub fn from_code(code: u8) -> Result<Self, NoPiece>
        ensures { MatchResult result (λ piece. piece_code piece ≡ code) (λ _. 16 ≤ code) }
    {
        Ok(match code {
            0x00 => Piece::Empty,
            0x01 => Piece::WhitePawn,
            0x02 => Piece::WhiteRook,
            0x03 => Piece::WhiteKnight,
            0x04 => Piece::WhiteBishop,
            0x05 => Piece::WhiteKing,
            0x06 => Piece::WhiteQueen,
            0x07 => Piece::BlackPawn,
            0x08 => Piece::BlackRook,
            0x09 => Piece::BlackKnight,
            0x0a => Piece::BlackBishop,
            0x0b => Piece::BlackKing,
            0x0c => Piece::BlackQueen,
            0x0d => Piece::FirstExtra,
            0x0e => Piece::SecondExtra,
            0x0f => Piece::ThirdExtra,
            _ => return Err(NoPiece),
        })
    }

    /// The code, from 0 to 15.
    pub fn code(self) -> u8
        ensures value { result ≡ piece_code self }
        ensures in_range { result < 16 }
    {
        self as u8
    }

    /// The letter: upper case for white, lower case for black, `.` for an empty square, and `X`,
    /// `Y` and `Z` for the extra pieces.
    pub fn letter(self) -> char
        ensures value { result ≡ piece_letter self }
        ensures ascii { result < 128 }
    {
        match self {
            Piece::Empty => '.',
            Piece::WhitePawn => 'P',
            Piece::WhiteRook => 'R',
            Piece::WhiteKnight => 'N',
            Piece::WhiteBishop => 'B',
            Piece::WhiteKing => 'K',
            Piece::WhiteQueen => 'Q',
            Piece::BlackPawn => 'p',
            Piece::BlackRook => 'r',
            Piece::BlackKnight => 'n',
            Piece::BlackBishop => 'b',
            Piece::BlackKing => 'k',
            Piece::BlackQueen => 'q',
            Piece::FirstExtra => 'X',
            Piece::SecondExtra => 'Y',
            Piece::ThirdExtra => 'Z',
        }
    }

    /// The piece of a letter. Returns `NoPiece` for any character other than the sixteen letters.
    pub fn from_letter(letter: char) -> Result<Self, NoPiece>
        ensures { MatchResult result
            (λ piece. piece_letter piece ≡ letter)
            (λ _. (piece : Piece) → piece_letter piece ≢ letter) }
    {
        Ok(match letter {
            '.' => Piece::Empty,
            'P' => Piece::WhitePawn,
            'R' => Piece::WhiteRook,
            'N' => Piece::WhiteKnight,
            'B' => Piece::WhiteBishop,
            'K' => Piece::WhiteKing,
            'Q' => Piece::WhiteQueen,
            'p' => Piece::BlackPawn,
            'r' => Piece::BlackRook,
            'n' => Piece::BlackKnight,
            'b' => Piece::BlackBishop,
            'k' => Piece::BlackKing,
            'q' => Piece::BlackQueen,
            'X' => Piece::FirstExtra,
            'Y' => Piece::SecondExtra,
            'Z' => Piece::ThirdExtra,
            _ => return Err(NoPiece),
        })
    }
}
