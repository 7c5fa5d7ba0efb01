//! What is seen of a board.

use dgt_chess::Colour;
use dgt_values::Position;

/// What a board shows.
#[derive(Clone, Copy, Debug, PartialEq, Eq)]
pub enum Sight {
    /// These pieces.
    Sure(Position),
    /// These pieces, unless something was lost on the line. They report nothing until others are
    /// sure, but show in which order half-moves were made.
    Doubted(Position),
    /// Nothing: the board is away.
    Away,
}

/// What is known of a board at a time.
#[derive(Clone, Copy, Debug, PartialEq, Eq)]
pub struct Observation {
    /// The time, in milliseconds of a clock that is never set back.
    pub at: u64,
    pub sight: Sight,
    /// Whether the board was asked again, and has shown the same.
    pub is_confirmed: bool,
    /// The player whose clock runs, if it is known.
    pub running: Option<Colour>,
}
