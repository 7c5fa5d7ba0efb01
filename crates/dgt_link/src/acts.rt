//! The acts in a world, and their outcomes.

ghost use Rattle.std.specs.Prelude.{◌≡◌, ◌∷◌, ◌≤◌, []};
ghost use Rattle.dgt_link.specs.Step.{done_count};

use dgt_command::Command;
use dgt_message::Clock;
use dgt_values::{Piece, Square};

/// An act in a world. The line from the host to the board is the down line, and the line from the
/// board to the host is the up line.
#[derive(Clone, Copy, Debug, PartialEq, Eq)]
pub enum Act<'a> {
    /// A piece is put on a square of the board; `Piece::Empty` removes the piece there.
    Change(Square, Piece),
    /// The board reads its clock, which shows this.
    ClockRead(Clock),
    /// The host writes a command into the down line.
    Host(Command<'a>),
    /// The board writes its next message into the up line.
    BoardSend,
    /// The board takes bytes of the down line, one by one, until it has taken this number, none is
    /// left or it owes 8 replies.
    ToBoard(usize),
    /// The host hears bytes of the up line, one by one, until it has heard this number or none is
    /// left.
    ToHost(usize),
    /// Both lines lose all their bytes, and both sides notice: `line_lost` of the board and of the
    /// host.
    Break,
    /// Both lines lose all their bytes, and only the host notices: it is as new, and writes the
    /// bytes of its `restart` into the down line.
    HostBreak,
}

/// The outcome of an act. An act that isn't `Done` changes nothing.
#[derive(Clone, Copy, Debug, PartialEq, Eq)]
pub enum Outcome {
    /// The act took place.
    Done,
    /// There was nothing to send or to move.
    Nothing,
    /// The line doesn't have room for the whole message or command.
    NoRoom,
    /// The board owes 8 replies, and takes no bytes.
    Busy,
    /// The reply would have to be awaited, and the host already awaits 16.
    TooMany,
}

/// One if the act was done, and otherwise 0.
pub(crate) fn count(outcome: Outcome) -> usize
    ensures count { result ≡ done_count (outcome ∷ []) }
    ensures at_most { result ≤ 1 }
{
    match outcome {
        Outcome::Done => 1,
        Outcome::Nothing | Outcome::NoRoom | Outcome::Busy | Outcome::TooMany => 0,
    }
}
