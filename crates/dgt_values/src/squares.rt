//! The squares of the board.

ghost use Rattle.std.specs.Prelude.{◌≡◌, ◌≢◌, ℕ, ◌<◌, ◌≤◌, ◌%◌, ◌∷◌, [], MatchResult};

use crate::refusals::NoSquare;

/// A square by its number, rank by rank from the eighth down: a8 is 0, b8 is 1, h8 is 7, a7 is 8
/// and h1 is 63.
#[derive(Clone, Copy, Debug, PartialEq, Eq)]
pub struct Square {
    index: u8,
    // There is no `Model`: a call on `&mut self` with a result that has one can't state what it
    // leaves.
    ghost small: { index < 64 },
}

impl Square {
    ghost use Rattle.dgt_values.specs.Board.{square_name, square_number};

    /// The square of a number from 0 to 63. Returns `NoSquare` for a greater one.
    pub fn from_index(index: u8) -> Result<Self, NoSquare>
        ensures { MatchResult result
            (λ square. (square_number square ≡ index) × (index < 64))
            (λ _. 64 ≤ index) }
    {
        if index < 64 {
            Ok(Square::from_small(index))
        } else {
            Err(NoSquare)
        }
    }

    /// The square of the low six bits of a number: of the number itself if it is below 64.
    pub fn from_small(index: u8) -> Self
        ensures low_bits { square_number result ≡ index % 64 }
        ensures small { index < 64 → square_number result ≡ index }
    {
        Square {
            index: index & 0x3f,
        }
    }

    /// The number, from 0 to 63.
    pub fn index(self) -> u8
        ensures value { result ≡ square_number self }
        ensures in_range { square_number self < 64 }
    {
        self.index
    }

    /// The square of a name such as `e4`: a lower-case letter from a to h for the file, then a
    /// digit from 1 to 8 for the rank. Returns `NoSquare` for any other text.
    pub fn parse(name: &str) -> Result<Self, NoSquare>
        ensures { MatchResult result
            (λ square. square_name (square_number square) ≡ name.now)
            (λ _. (square : ℕ) → square < 64 → square_name square ≢ name.now) }
    {
        match name.as_bytes() {
            [file @ b'a'..=b'h', rank @ b'1'..=b'8'] => Ok(Square {
                index: 8 * (b'8' - *rank) + (*file - b'a'),
            }),
            _ => Err(NoSquare),
        }
    }

    /// The two bytes of the name: the file's letter and the rank's digit.
    pub fn name(self) -> [u8; 2]
        ensures { result ≡ square_name (square_number self) }
    {
        [b'a' + self.index % 8, b'8' - self.index / 8]
    }
}
