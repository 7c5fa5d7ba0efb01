//! What is reported.

ghost use Rattle.std.specs.Prelude.{◌≡◌, ◌<◌, ◌≤◌, [], ◌∷◌, length};

use dgt_chess::{Move, State};

/// The most half-moves that are looked for between two positions that the board shows.
pub const GAP: usize = 4;

/// Half-moves in turn.
#[derive(Clone, Copy, Debug, PartialEq, Eq)]
pub struct Moves {
    // those after the count are not used
    list: [Move; GAP],
    count: u8,
    ghost all: { length list ≡ 4 },
    ghost few: { count ≤ 4 },
}

impl Moves {
    ghost use Rattle.dgt_game.specs.Lines.{moves_of};

    /// A single half-move.
    pub fn new(one: Move) -> Self
        ensures { moves_of result ≡ one ∷ [] }
    {
        Moves {
            list: [one; GAP],
            count: 1,
        }
    }

    // These half-moves after another.
    pub(crate) fn prepend(&self, one: Move) -> Self
        requires { length (moves_of self.now) < 4 }
        ensures { moves_of result ≡ one ∷ moves_of self.now }
    {
        Moves {
            list: [one, self.list[0], self.list[1], self.list[2]],
            count: self.count + 1,
        }
    }

    /// The half-moves.
    pub fn as_slice(&self) -> &[Move]
        ensures { result.now ≡ moves_of self.now }
    {
        &self.list[..self.count as usize]
    }

    /// How many half-moves there are.
    pub fn len(&self) -> usize
        ensures { result ≡ length (moves_of self.now) }
    {
        self.count as usize
    }
}

/// The result of a game.
#[derive(Clone, Copy, Debug, PartialEq, Eq)]
pub enum GameResult {
    WhiteWins,
    BlackWins,
    Draw,
}

/// What is reported of a game.
#[derive(Clone, Copy, Debug, PartialEq, Eq)]
pub enum Event {
    /// A line begins with this state. The one before is broken off, if it has no result. If the
    /// second is true, the board is turned: White's pieces began on its ranks 8 and 7.
    Begun(State, bool),
    /// A half-move, and the position after it was shown.
    Made(Move),
    /// Half-moves, of which only the position after the last was shown: the only legal line of as
    /// many that leads there.
    Unseen(Moves),
    /// As many half-moves, of which only the position after the last was shown. Some legal line of
    /// as many leads to this state, but it isn't known which was made.
    Gap(State, u8),
    /// As many half-moves are taken back: those of the last `Made`, `Unseen` or `Gap`. If the
    /// second is true, what is taken back since the last of these stays: keep the line with it.
    Back(u8, bool),
    /// The game has ended.
    Ended(GameResult),
    /// No half-moves lead to what the board shows. The set has the squares whose pieces differ
    /// from the last state's: bit 0 is a8 (or h1 if the board is turned).
    Lost(u64),
    /// The board shows a position of the game again.
    Found,
}
